// The shared places that a step could touch, by themselves: a step passes these on, and not the bench record, which is
// 16 times as large.

#![tactic(auto)]

ghost use Rattle.std.specs.Prelude.{◌≡◌, ◌<◌};
ghost use Rattle.model.specs.Points.{point_of};
ghost use Rattle.model.specs.declared.Reply.TheVariants.{Accepted};
ghost use Rattle.lines.specs.Ranges.{Sized};
ghost use Rattle.taken.specs.Taken.{bank_index, help_index, taken_at, put_back, after_x, after_bank, after_help, after_word};

use lines::{points, sequence};
use llsc::ProcessNumber;
use model::{
    BankPlace, Bench, HelpPlace, LineStep, Moved, Process, Reply, SequenceNumber, WordStep, XPlace,
};

// The shared places that a step could touch, taken out of the bench record: X, one place of Bank and one of Help.
#[derive(Clone, Copy)]
pub struct Taken {
    pub x: XPlace,
    pub bank: BankPlace,
    pub help: HelpPlace,
}

// What a step makes of them and of its own process, with its reply.
// Kept: no `LineStep<Taken>`, as `place` would be three places.
#[derive(Clone, Copy)]
pub struct Stepped {
    pub taken: Taken,
    pub process: Process,
    pub reply: Reply,
}

impl Stepped {
    // What a step that does not answer leaves.
    pub fn accepted(taken: Taken, process: Process) -> Stepped
        ensures { result ≡ record { taken = taken; process = process; reply = Accepted } }
    {
        Stepped {
            taken,
            process,
            reply: Reply::Accepted,
        }
    }
}

// Which place of Bank: line 18 reads the one after x.seq.
pub fn bank_index(n: usize, process: Process) -> SequenceNumber
    requires { Sized n }
    ensures { result ≡ bank_index (point_of process.line) n process }
{
    if process.line == points::LINE_18 {
        return sequence::following(n, process.x.seq);
    }
    process.x.seq
}

// Which place of Help: lines 14 and 15 that of the process that is helped, the others the own one.
pub fn help_index(n: usize, p: ProcessNumber, process: Process) -> ProcessNumber
    requires { Sized n }
    ensures { result ≡ help_index (point_of process.line) n p process }
{
    match process.line {
        points::LINE_14 | points::LINE_15 => sequence::helped_by(n, process.x.seq),
        _ => p,
    }
}

// A place of each kind, together.
pub fn places(x: XPlace, bank: BankPlace, help: HelpPlace) -> Taken
    ensures { result ≡ record { x = x; bank = bank; help = help } }
{
    Taken { x, bank, help }
}

// X, Bank[i] and Help[j] taken out.
pub fn take(bench: Bench, i: SequenceNumber, j: ProcessNumber) -> Taken
    requires { (i.0 < 32) × (j.0 < 16) }
    ensures { result ≡ taken_at bench i j }
{
    Taken {
        x: bench.x,
        bank: tables::bank_at(bench, i),
        help: tables::help_at(bench, j),
    }
}

// X, Bank[i] and Help[j] put back, all three into one copy of the bench record.
pub fn put_back(bench: Bench, i: SequenceNumber, j: ProcessNumber, stepped: Stepped) -> Moved
    requires { (i.0 < 32) × (j.0 < 16) }
    ensures { result ≡ put_back bench i j stepped }
{
    let Stepped {
        taken,
        process,
        reply,
    } = stepped;
    let mut bench = bench;
    bench.x = taken.x;
    bench.bank[tables::bank_place(i)] = taken.bank;
    bench.help[tables::help_place(j)] = taken.help;
    Moved {
        bench,
        process,
        reply,
    }
}

// What a line made of X.
// Kept: a function for each of the three places, as they differ in the field that is written, which no value names.
pub fn after_x(taken: Taken, step: LineStep<XPlace>) -> Stepped
    ensures { result ≡ after_x taken step }
{
    Stepped {
        taken: Taken {
            x: step.place,
            ..taken
        },
        process: step.process,
        reply: step.reply,
    }
}

// What a line made of the place of Bank.
pub fn after_bank(taken: Taken, step: LineStep<BankPlace>) -> Stepped
    ensures { result ≡ after_bank taken step }
{
    Stepped {
        taken: Taken {
            bank: step.place,
            ..taken
        },
        process: step.process,
        reply: step.reply,
    }
}

// What a line made of the place of Help.
pub fn after_help(taken: Taken, step: LineStep<HelpPlace>) -> Stepped
    ensures { result ≡ after_help taken step }
{
    Stepped {
        taken: Taken {
            help: step.place,
            ..taken
        },
        process: step.process,
        reply: step.reply,
    }
}

// A line that moved a word leaves all three places.
pub fn after_word(taken: Taken, step: WordStep) -> Stepped
    ensures { result ≡ after_word taken step }
{
    Stepped {
        taken,
        process: step.process,
        reply: step.reply,
    }
}
