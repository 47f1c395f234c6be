// What a step made, written back.
ghost use Rattle.std.specs.Prelude.{◌≡◌, ◌+◌, ◌<◌, ◌≤◌, length};
ghost use Rattle.std.proofs.lemmas.List.Edits.{sets};
ghost use Rattle.held_model.specs.Layout.{words_place};
ghost use Rattle.held_machine.specs.Writes.{x_numbers, bank_numbers, help_numbers, holding_numbers, call_numbers, written};

use held_rows::layout;
use llsc::ProcessNumber;
use model::{BankPlace, HelpPlace, Process, XPlace};
use station::RecordNumber;
use taken::{Stepped, Taken};
use words::word_runs;

fn x_numbers(x: XPlace) -> [u64; 3]
    ensures { result ≡ x_numbers x }
{
    [
        x.content.buf.0 as u64,
        x.content.seq.0 as u64,
        x.links as u64,
    ]
}

fn bank_numbers(place: BankPlace) -> [u64; 2]
    ensures { result ≡ bank_numbers place }
{
    [place.content.0 as u64, place.links as u64]
}

fn help_numbers(place: HelpPlace) -> [u64; 3]
    ensures { result ≡ help_numbers place }
{
    [
        place.content.flag as u64,
        place.content.buf.0 as u64,
        place.links as u64,
    ]
}

// What a process holds of a record.
fn holding_numbers(q: Process) -> [u64; 4]
    ensures { result ≡ holding_numbers q }
{
    [
        q.mybuf.0 as u64,
        q.x.buf.0 as u64,
        q.x.seq.0 as u64,
        if q.answered { 1 } else { 0 },
    ]
}

// Its open call, on record j.
fn call_numbers(j: RecordNumber, q: Process) -> [u64; 8]
    ensures { result ≡ call_numbers j.0 q }
{
    [
        q.line as u64,
        q.word as u64,
        q.count as u64,
        if q.line == 0 { 0 } else { j.0 as u64 },
        q.b.0 as u64,
        q.c.0 as u64,
        q.d.0 as u64,
        q.e.0 as u64,
    ]
}

// All that a step of process p on record j left. The numbers of its places of Bank and Help begin at `bank` and `help`.
#[inline(always)]
pub fn write_back(
    held: &mut [u64],
    j: RecordNumber,
    p: ProcessNumber,
    bank: usize,
    help: usize,
    stepped: Stepped,
)
    requires room { (p.0 < 16) × (words_place (j.0 + 1) ≤ length held.old) }
    requires places { (bank + 2 ≤ length held.old) × (help + 3 ≤ length held.old) }
    ensures { held.new ≡ written held.old j.0 bank help p.0 stepped }
{
    let Stepped { taken, process, .. } = stepped;
    let Taken {
        x,
        bank: bank_place,
        help: help_place,
    } = taken;
    word_runs::copy_in(held, layout::record_place(j), &x_numbers(x));
    word_runs::copy_in(held, bank, &bank_numbers(bank_place));
    word_runs::copy_in(held, help, &help_numbers(help_place));
    word_runs::copy_in(held, layout::holding_place(j, p), &holding_numbers(process));
    word_runs::copy_in(held, layout::call_place(p), &call_numbers(j, process));
}
