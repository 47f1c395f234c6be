// The accesses to a place of Help: the own one, and at lines 14 and 15 that of the process that is helped. p is the
// process that steps.
ghost use Rattle.std.specs.Prelude.{◌≡◌, ◌<◌};
ghost use Rattle.model.specs.Tables.{helped};
ghost use Rattle.lines.specs.Ranges.{Sized};
ghost use Rattle.access.specs.AccessOn.{help_access, ll_of_help, sc_of_help};

use crate::{Access, Act, Values};
use lines::on_help::{ASKED, GIVEN};
use lines::sequence;
use llsc::ProcessNumber;
use model::{BufferNumber, HelpContent, HelpPlace, Process};

// Line 1: the plain write of Help[p].
pub fn write(p: ProcessNumber, process: Process) -> Access
    ensures { result ≡ help_access 1 p Act.Write (record { flag = 1; buf = process.mybuf }) }
{
    let buf = process.mybuf;
    let asked = HelpContent { flag: ASKED, buf };
    Access {
        line: 1,
        act: Act::Write(Values::Help(p, asked)),
    }
}

// Lines 4, 8 and 14: LL(Help[i]).
pub fn ll(line: u8, i: ProcessNumber, help: HelpPlace) -> Access
    ensures { result ≡ ll_of_help line i help }
{
    Access {
        line,
        act: Act::Ll(Values::Help(i, help.content)),
    }
}

// Lines 9 and 15: p's SC(Help[i], (0, buf)).
pub fn sc(
    line: u8,
    i: ProcessNumber,
    p: ProcessNumber,
    buf: BufferNumber,
    help: HelpPlace,
) -> Access
    requires { p.0 < 16 }
    ensures { result ≡ sc_of_help line i p buf help }
{
    let done = places::is_linked(help.links, p);
    let given = HelpContent { flag: GIVEN, buf };
    Access {
        line,
        act: Act::Sc(done, Values::Help(i, given)),
    }
}

// Line 10: the plain read of Help[p].
pub fn read(p: ProcessNumber, help: HelpPlace) -> Access
    ensures { result ≡ help_access 10 p Act.Read help.content }
{
    Access {
        line: 10,
        act: Act::Read(Values::Help(p, help.content)),
    }
}

// Line 14: LL(Help[x.seq mod N]). n is N.
pub fn ll_helped(n: usize, help: HelpPlace, process: Process) -> Access
    requires { Sized n }
    ensures { result ≡ ll_of_help 14 (helped n process.x.seq) help }
{
    let i = sequence::helped_by(n, process.x.seq);
    ll(14, i, help)
}

// Line 15: SC(Help[x.seq mod N], (0, mybuf)). n is N.
pub fn sc_helped(n: usize, p: ProcessNumber, help: HelpPlace, process: Process) -> Access
    requires { (p.0 < 16) × Sized n }
    ensures { result ≡ sc_of_help 15 (helped n process.x.seq) p process.mybuf help }
{
    let i = sequence::helped_by(n, process.x.seq);
    sc(15, i, p, process.mybuf, help)
}
