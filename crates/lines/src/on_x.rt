// The lines of Figure 2 that touch X. p is the process that steps.
// Kept: p, the place and the process one by one, for Help too: a struct of the three would be made for one call alone.
ghost use Rattle.std.specs.Prelude.{◌≡◌, cond};
ghost use Rattle.model.specs.Places.{linked};
ghost use Rattle.model.specs.Records.{to_line};
ghost use Rattle.model.specs.Lines.{do_line2_then, do_line7, do_line12_valid, do_line14_valid, do_line19, do_line23};
ghost use Rattle.model.specs.declared.Reply.TheVariants.{Accepted};
ghost use Rattle.lines.specs.Ranges.{Stepping, Sized};

use crate::{points, records, sequence};
use llsc::ProcessNumber;
use model::{LineStep, Process, Reply, XContent, XPlace};

// Lines 2 and 5: x = LL(X). Line 3 or 6 follows.
#[inline(always)]
pub fn do_line_2(line: u8, p: ProcessNumber, x: XPlace, process: Process) -> LineStep<XPlace>
    requires { Stepping p process }
    ensures { result ≡ do_line2_then line p x process }
{
    let read = Process {
        x: x.content,
        ..process
    };
    LineStep::accepted(places::ll(x, p), records::to(line, read))
}

// VL(X), after which one of two lines follows.
fn valid(p: ProcessNumber, x: XPlace, process: Process, yes: u8, no: u8) -> LineStep<XPlace>
    requires { Stepping p process }
    ensures { result ≡ record { place = x; process = cond (linked x.links p) (to_line yes process) (to_line no process); reply = Accepted } }
{
    let line = if places::is_linked(x.links, p) {
        yes
    } else {
        no
    };
    LineStep::accepted(x, records::to(line, process))
}

// Line 7: if not VL(X), the words read may be torn, and the handed-over ones are taken from BUF[b].
#[inline(always)]
pub fn do_line_7(p: ProcessNumber, x: XPlace, process: Process) -> LineStep<XPlace>
    requires { Stepping p process }
    ensures { result ≡ do_line7 p x process }
{
    valid(p, x, process, points::LINE_8, points::LINE_7_COPY)
}

// The VL(X) of line 12: only a process whose link is good banks x.buf.
// Kept: a function for each VL(X) within a call, as each is at a line of its own; what they share is `valid`.
#[inline(always)]
pub fn do_line_12_valid(p: ProcessNumber, x: XPlace, process: Process) -> LineStep<XPlace>
    requires { Stepping p process }
    ensures { result ≡ do_line12_valid p x process }
{
    valid(p, x, process, points::LINE_13, points::LINE_14)
}

// The VL(X) of line 14: without it an old value would be handed over as a valid one.
#[inline(always)]
pub fn do_line_14_valid(p: ProcessNumber, x: XPlace, process: Process) -> LineStep<XPlace>
    requires { Stepping p process }
    ensures { result ≡ do_line14_valid p x process }
{
    valid(p, x, process, points::LINE_15, points::LINE_17)
}

// Lines 19 to 22: SC(X, (mybuf, (x.seq + 1) mod 2N)) and the answer; a success takes e, the buffer that it freed. n is
// N.
#[inline(always)]
pub fn do_line_19(n: usize, p: ProcessNumber, x: XPlace, process: Process) -> LineStep<XPlace>
    requires { Stepping p process × Sized n }
    ensures { result ≡ do_line19 n p x process }
{
    let buf = process.mybuf;
    let seq = sequence::following(n, process.x.seq);
    let done = places::is_linked(x.links, p);
    let owner = if done {
        Process {
            mybuf: process.e,
            ..process
        }
    } else {
        process
    };
    LineStep {
        place: places::sc(x, p, XContent { buf, seq }),
        process: records::rested(owner),
        reply: Reply::ScAnswered(done, process.count + 1),
    }
}

// Line 23: return VL(X).
#[inline(always)]
pub fn do_line_23(p: ProcessNumber, x: XPlace, process: Process) -> LineStep<XPlace>
    requires { Stepping p process }
    ensures { result ≡ do_line23 p x process }
{
    LineStep {
        place: x,
        process: records::rested(process),
        reply: Reply::VlAnswered(places::is_linked(x.links, p), process.count + 1),
    }
}
