// A schedule turn by turn: the totals are of the turns that are still to take.
ghost use Rattle.std.specs.Prelude.{◌≡◌, ◌+◌, ◌<◌};
ghost use Rattle.ways.specs.Ways.{ways};
ghost use Rattle.enumeration.specs.Turns.{chosen, taken};
ghost use Rattle.enumeration.specs.Taking.{choice, taking};

use crate::totals::Totals;

// The first turn of a schedule, with what is left to take, and the rest's number.
// Kept: `turn` is a process, 0 or 1, as the byte of the user's list that it is put into; no field hangs on which it is.
#[derive(Clone, Copy)]
pub struct Chosen {
    pub turn: u8,
    pub left: Totals,
    pub number: u64,
}

// What is left after a turn, and how many schedules come before all that begin with it.
#[derive(Clone, Copy)]
pub struct Taken {
    pub left: Totals,
    pub skipped: u64,
}

// The first turn of the schedule with this number.
#[tactic(auto, unfolding(crate::specs::Turns::chosen), using(crate::proofs::TurnLaws::zero_there))]
pub fn choose(left: Totals, number: u64) -> Chosen
    requires { (0 < left.a + left.b) × (number < ways left.a left.b) }
    ensures { choice result ≡ chosen left.a left.b number }
{
    let zeros = left.zero_first();
    if number < zeros {
        return Chosen {
            turn: 0,
            left: Totals {
                a: left.a - 1,
                b: left.b,
            },
            number,
        };
    }
    Chosen {
        turn: 1,
        left: Totals {
            a: left.a,
            b: left.b - 1,
        },
        number: number - zeros,
    }
}

// A turn that the schedule begins with; none where no schedule does.
#[tactic(auto, unfolding(crate::specs::Turns::taken))]
pub fn take(left: Totals, turn: u8) -> Option<Taken>
    ensures { taking result ≡ taken left.a left.b turn }
{
    match turn {
        0 if left.a > 0 => Some(Taken {
            left: Totals {
                a: left.a - 1,
                b: left.b,
            },
            skipped: 0,
        }),
        1 if left.b > 0 => Some(Taken {
            left: Totals {
                a: left.a,
                b: left.b - 1,
            },
            skipped: left.zero_first(),
        }),
        _ => None,
    }
}
