// The totals of a schedule: how many turns it has of each process.
ghost use Rattle.std.specs.Prelude.{◌≤◌};

use llsc::refusals::Refusal;

const MOST_TURNS: usize = 32;

// So many turns of process 0 and so many of process 1, none above 32.
#[derive(Clone, Copy)]
pub struct Totals {
    pub a: usize,
    pub b: usize,
    pub ghost few: { (a ≤ 32) × (b ≤ 32) },
}

impl Totals {
    ghost use Rattle.std.specs.Prelude.{◌≡◌, MatchResult};
    ghost use Rattle.ways.specs.Ways.{ways};
    ghost use Rattle.enumeration.specs.Turns.{zero_first, TotalsOf, TooMany};

    pub fn new(a: usize, b: usize) -> Result<Totals, Refusal>
        ensures { MatchResult result (TotalsOf a b) (TooMany a b) }
    {
        if a > MOST_TURNS || b > MOST_TURNS {
            return Err(Refusal::TooManyTurns);
        }
        Ok(Totals { a, b })
    }

    // How many schedules have these totals.
    pub fn schedules(self) -> u64
        ensures { result ≡ ways self.a self.b }
    {
        ways::entry(self.a, self.b)
    }

    // How many of them begin with process 0.
    #[tactic(auto, unfolding(crate::specs::Turns::zero_first))]
    pub fn zero_first(self) -> u64
        ensures { result ≡ zero_first self.a self.b }
    {
        if self.a == 0 {
            0
        } else {
            ways::entry(self.a - 1, self.b)
        }
    }
}
