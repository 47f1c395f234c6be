// The lines of Figure 2 that touch a place of Help. p is the process that steps.
ghost use Rattle.std.specs.Prelude.{◌≡◌, ◌<◌};
ghost use Rattle.model.specs.Lines.{do_line1, do_line4, do_line8, do_line9, do_line10, do_line14, do_line15};
ghost use Rattle.model.specs.Places.{ll_place};
ghost use Rattle.model.specs.Records.{to_line};
ghost use Rattle.model.specs.declared.Reply.TheVariants.{Accepted};
ghost use Rattle.lines.specs.Ranges.{Stepping};

use crate::{points, records};
use llsc::ProcessNumber;
use model::{HelpContent, HelpPlace, LineStep, Process};

// A flag of Help: the process asks for help, or none is asked or it was given.
// Kept: numbers, as lent memory holds any number in a flag; row 9 refuses all but these two.
pub const ASKED: u8 = 1;

pub const GIVEN: u8 = 0;

// Line 1: Help[p] = (1, mybuf).
#[inline(always)]
pub fn do_line_1(help: HelpPlace, process: Process) -> LineStep<HelpPlace>
    requires { process.count < 4294967296 }
    ensures { result ≡ do_line1 help process }
{
    let buf = process.mybuf;
    let place = places::write(HelpContent { flag: ASKED, buf });
    LineStep::accepted(place, records::to(points::LINE_2, process))
}

// LL(Help), after which this line follows.
fn linked(line: u8, p: ProcessNumber, help: HelpPlace, process: Process) -> LineStep<HelpPlace>
    requires { Stepping p process }
    ensures { result ≡ record { place = ll_place help p; process = to_line line process; reply = Accepted } }
{
    LineStep::accepted(places::ll(help, p), records::to(line, process))
}

// Line 4: if LL(Help[p]) = (0, b), help was given, and lines 5 to 7 follow.
// Kept: beside lines 8 and 14, as each names its own flag, buffer and lines; what they share is `linked`.
#[inline(always)]
pub fn do_line_4(p: ProcessNumber, help: HelpPlace, process: Process) -> LineStep<HelpPlace>
    requires { Stepping p process }
    ensures { result ≡ do_line4 p help process }
{
    let HelpContent { flag, buf } = help.content;
    if flag == GIVEN {
        return linked(points::LINE_5, p, help, Process { b: buf, ..process });
    }
    linked(points::LINE_8, p, help, process)
}

// Line 8: if LL(Help[p]) = (1, c), no help came, and line 9 takes the question back.
#[inline(always)]
pub fn do_line_8(p: ProcessNumber, help: HelpPlace, process: Process) -> LineStep<HelpPlace>
    requires { Stepping p process }
    ensures { result ≡ do_line8 p help process }
{
    let HelpContent { flag, buf } = help.content;
    if flag == ASKED {
        return linked(points::LINE_9, p, help, Process { c: buf, ..process });
    }
    linked(points::LINE_10, p, help, process)
}

// Line 9: SC(Help[p], (0, c)). No plain write: it would wipe out help that came after line 8.
#[inline(always)]
pub fn do_line_9(p: ProcessNumber, help: HelpPlace, process: Process) -> LineStep<HelpPlace>
    requires { Stepping p process }
    ensures { result ≡ do_line9 p help process }
{
    let buf = process.c;
    let place = places::sc(help, p, HelpContent { flag: GIVEN, buf });
    LineStep::accepted(place, records::to(points::LINE_10, process))
}

// Line 10: mybuf = Help[p].buf, whichever buffer the question came back with.
#[inline(always)]
pub fn do_line_10(help: HelpPlace, process: Process) -> LineStep<HelpPlace>
    requires { process.count < 4294967296 }
    ensures { result ≡ do_line10 help process }
{
    let owner = Process {
        mybuf: help.content.buf,
        ..process
    };
    LineStep::accepted(help, records::to(points::LINE_11, owner))
}

// Line 14: if LL(Help[x.seq mod N]) = (1, d), that process asks for help.
#[inline(always)]
pub fn do_line_14(p: ProcessNumber, help: HelpPlace, process: Process) -> LineStep<HelpPlace>
    requires { Stepping p process }
    ensures { result ≡ do_line14 p help process }
{
    let HelpContent { flag, buf } = help.content;
    if flag == ASKED {
        return linked(
            points::LINE_14_VALID,
            p,
            help,
            Process { d: buf, ..process },
        );
    }
    linked(points::LINE_17, p, help, process)
}

// Lines 15 and 16: if SC(Help[x.seq mod N], (0, mybuf)) then mybuf = d, the buffer that is given in exchange.
#[inline(always)]
pub fn do_line_15(p: ProcessNumber, help: HelpPlace, process: Process) -> LineStep<HelpPlace>
    requires { Stepping p process }
    ensures { result ≡ do_line15 p help process }
{
    let buf = process.mybuf;
    let place = places::sc(help, p, HelpContent { flag: GIVEN, buf });
    let owner = if places::is_linked(help.links, p) {
        Process {
            mybuf: process.d,
            ..process
        }
    } else {
        process
    };
    LineStep::accepted(place, records::to(points::LINE_17, owner))
}
