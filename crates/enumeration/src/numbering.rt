// Both translations, where nothing is refused but the turns themselves.
ghost use Rattle.std.specs.Prelude.{◌≡◌, ◌<◌};
ghost use Rattle.ways.specs.Ways.{ways};
ghost use Rattle.enumeration_model.specs.Schedules.{schedule_for};
ghost use Rattle.enumeration.specs.Replies.{kept};
ghost use Rattle.enumeration.specs.Turns.{placed};

use crate::totals::Totals;
use crate::{Schedule, turns};

// The schedule with this number.
#[tactic(auto, using(crate::proofs::LoopLaws::fill_begins, crate::proofs::LoopLaws::fill_ends))]
pub fn schedule_at(totals: Totals, number: u64) -> Schedule
    requires { number < ways totals.a totals.b }
    ensures { result ≡ kept totals.a totals.b (schedule_for totals.a totals.b number) }
{
    let count = totals.a + totals.b;
    let mut turns = [0; 64];
    let mut left = totals;
    let mut k = number;
    for i in 0..count {
        let c = turns::choose(left, k);
        turns[i] = c.turn;
        left = c.left;
        k = c.number;
    }
    Schedule { count, turns }
}

// The number for the turns; none where they are no schedule.
#[tactic(auto, using(crate::proofs::LoopLaws::count_begins, crate::proofs::LoopLaws::count_short))]
pub fn number_of(totals: Totals, turns: &[u8]) -> Option<u64>
    ensures { result ≡ placed totals.a totals.b turns.now }
{
    let mut left = totals;
    let mut k = 0;
    for turn in turns {
        let t = turns::take(left, *turn)?;
        left = t.left;
        k += t.skipped;
    }
    if left.a + left.b > 0 {
        return None;
    }
    Some(k)
}
