// The lines of Figure 2 that touch a place of Bank. p is the process that steps.
ghost use Rattle.std.specs.Prelude.{◌≡◌, ◌<◌};
ghost use Rattle.model.specs.Lines.{do_line12, do_line13, do_line18};
// Kept: `Stepping`, and a bound of the count, are clauses, as the process record is lent and may hold any number.
ghost use Rattle.lines.specs.Ranges.{Stepping};

use crate::{points, records};
use llsc::ProcessNumber;
use model::{BankPlace, LineStep, Process};

// Line 12: if LL(Bank[x.seq]) differs from x.buf, the buffer of the last success is still to be banked.
#[inline(always)]
pub fn do_line_12(p: ProcessNumber, bank: BankPlace, process: Process) -> LineStep<BankPlace>
    requires { Stepping p process }
    ensures { result ≡ do_line12 p bank process }
{
    let line = if bank.content == process.x.buf {
        points::LINE_14
    } else {
        points::LINE_12_VALID
    };
    LineStep::accepted(places::ll(bank, p), records::to(line, process))
}

// Line 13: SC(Bank[x.seq], x.buf).
#[inline(always)]
pub fn do_line_13(p: ProcessNumber, bank: BankPlace, process: Process) -> LineStep<BankPlace>
    requires { Stepping p process }
    ensures { result ≡ do_line13 p bank process }
{
    let place = places::sc(bank, p, process.x.buf);
    LineStep::accepted(place, records::to(points::LINE_14, process))
}

// Line 18: e = Bank[(x.seq + 1) mod 2N], a plain read: the buffer that a success frees.
#[inline(always)]
pub fn do_line_18(bank: BankPlace, process: Process) -> LineStep<BankPlace>
    requires { process.count < 4294967296 }
    ensures { result ≡ do_line18 bank process }
{
    let found = Process {
        e: bank.content,
        ..process
    };
    LineStep::accepted(bank, records::to(points::LINE_19, found))
}
