// The accesses to a place of Bank. p is the process that steps.
ghost use Rattle.std.specs.Prelude.{◌≡◌, ◌<◌};
ghost use Rattle.model.specs.Places.{linked};
ghost use Rattle.model.specs.Tables.{next};
ghost use Rattle.lines.specs.Ranges.{Sized};
ghost use Rattle.access.specs.AccessOn.{bank_access};

use crate::{Access, Act, Values};
use lines::sequence;
use llsc::ProcessNumber;
use model::{BankPlace, XContent};

// Line 12: LL(Bank[x.seq]).
pub fn ll(bank: BankPlace, x: XContent) -> Access
    ensures { result ≡ bank_access 12 x.seq Act.Ll bank.content }
{
    Access {
        line: 12,
        act: Act::Ll(Values::Bank(x.seq, bank.content)),
    }
}

// Line 13: SC(Bank[x.seq], x.buf).
pub fn sc(p: ProcessNumber, bank: BankPlace, x: XContent) -> Access
    requires { p.0 < 16 }
    ensures { result ≡ bank_access 13 x.seq (Act.Sc (linked bank.links p)) x.buf }
{
    let done = places::is_linked(bank.links, p);
    Access {
        line: 13,
        act: Act::Sc(done, Values::Bank(x.seq, x.buf)),
    }
}

// Line 18: the plain read of Bank[(x.seq + 1) mod 2N]. n is N.
pub fn read(n: usize, bank: BankPlace, x: XContent) -> Access
    requires { Sized n }
    ensures { result ≡ bank_access 18 (next n x.seq) Act.Read bank.content }
{
    let i = sequence::following(n, x.seq);
    Access {
        line: 18,
        act: Act::Read(Values::Bank(i, bank.content)),
    }
}
