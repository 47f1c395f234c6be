// The rows of the table.
ghost use Rattle.std.specs.Prelude.{◌≡◌, ◌≤◌};
ghost use Rattle.sums.specs.Fractions.{gcd, lowest, row_of, rows_of};

use crate::{Fraction, Row};
use answers::Sum;

// Euclid's greatest common divisor.
#[tactic(auto, using(crate::proofs::GcdLaws::dividing))]
fn gcd_of(a: u64, b: u64) -> u64
    ensures { result ≡ gcd a b }
{
    let mut x = a;
    let mut y = b;
    while y != 0 {
        let rest = x % y;
        x = y;
        y = rest;
    }
    x
}

impl Fraction {
    // Kept: 02, CR 2: "A process with no such call gets 0 over 0".
    const NONE: Fraction = Fraction { over: 0, under: 0 };

    // The fraction in lowest terms, 0 over 0 where it is of no call.
    #[tactic(auto, using(crate::proofs::GcdLaws::lowering))]
    fn lowest(self) -> Fraction
        ensures { result ≡ lowest self.over self.under }
    {
        if self.under == 0 {
            return Fraction::NONE;
        }
        let g = gcd_of(self.over, self.under);
        Fraction {
            over: self.over / g,
            under: self.under / g,
        }
    }
}

impl Row {
    // A row of 0 over 0.
    pub const NONE: Row = Row {
        successes: Fraction::NONE,
        steps: Fraction::NONE,
    };
}

// The row of a process.
impl From<Sum> for Row {
    ghost from_gives = { λ s r. r ≡ row_of s };

    #[tactic(auto, unfolding(crate::specs::Fractions::row_of))]
    fn from(s: Sum) -> Row {
        let successes = Fraction {
            over: s.successes,
            under: s.scs,
        };
        let steps = Fraction {
            over: s.steps,
            under: s.lls,
        };
        Row {
            successes: successes.lowest(),
            steps: steps.lowest(),
        }
    }
}

// The rows of the first n processes.
#[tactic(auto, unfolding(crate::specs::Fractions::rows_of), using(crate::proofs::RowLaws::rows_more))]
pub fn rows_of(each: [Sum; 16], n: usize) -> [Row; 16]
    requires { n ≤ 16 }
    ensures { result ≡ rows_of each n }
{
    let mut rows = [Row::NONE; 16];
    for k in 0..n {
        rows[k] = Row::from(each[k]);
    }
    rows
}
