// The accesses to X. p is the process that steps.
ghost use Rattle.std.specs.Prelude.{◌≡◌, ◌<◌};
ghost use Rattle.model.specs.Places.{linked};
ghost use Rattle.model.specs.Tables.{next};
ghost use Rattle.lines.specs.Ranges.{Sized};
ghost use Rattle.access.specs.AccessOn.{x_access, ll_of_x, vl_of_x};

use crate::{Access, Act, Values};
use doings::Item;
use lines::sequence;
use llsc::ProcessNumber;
use model::{Process, XContent, XPlace};

// Lines 2 and 5: LL(X).
pub fn ll(line: u8, x: XPlace) -> Access
    ensures { result ≡ ll_of_x line x }
{
    Access {
        line,
        act: Act::Ll(Values::X(x.content)),
    }
}

// Lines 7, 12, 14 and 23: VL(X).
pub fn vl(line: u8, p: ProcessNumber, x: XPlace) -> Access
    requires { p.0 < 16 }
    ensures { result ≡ vl_of_x line (linked x.links p) }
{
    Access {
        line,
        act: Act::Vl(places::is_linked(x.links, p), Item::X),
    }
}

// Line 19: SC(X, (mybuf, (x.seq + 1) mod 2N)). n is N.
pub fn sc(n: usize, p: ProcessNumber, x: XPlace, process: Process) -> Access
    requires { (p.0 < 16) × Sized n }
    ensures { result ≡ x_access 19 (Act.Sc (linked x.links p)) (record { buf = process.mybuf; seq = next n process.x.seq }) }
{
    let buf = process.mybuf;
    let seq = sequence::following(n, process.x.seq);
    let done = places::is_linked(x.links, p);
    Access {
        line: 19,
        act: Act::Sc(done, Values::X(XContent { buf, seq })),
    }
}
