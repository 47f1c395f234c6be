// All small schedules, in order (CR 5): every way in which processes 0 and 1 can take a and b turns. `schedule_for`,
// `number_for` and `schedule_after` are for users; none asks anything of its caller.

#![tactic(auto)]

mod numbering;
mod totals;
mod turns;

ghost use Rattle.std.specs.Prelude.{◌≡◌};
ghost use Rattle.enumeration.specs.Replies.{found_for, numbered_for, following_for};

use llsc::refusals::Refusal;
use totals::Totals;

// The turns of a schedule, each the number of its process; 0 behind them.
// Kept: 64 places with a count beside them, for the library under C has no heap.
#[derive(Clone, Copy)]
pub struct Schedule {
    pub count: usize,
    pub turns: [u8; 64],
}

// The schedule for a number.
#[tactic(auto, using(crate::proofs::ReplyLaws::found_laws))]
pub fn schedule_for(a: usize, b: usize, number: u64) -> Result<Schedule, Refusal>
    ensures { result ≡ found_for a b number }
{
    let totals = Totals::new(a, b)?;
    if number >= totals.schedules() {
        return Err(Refusal::NoSuchNumber);
    }
    Ok(numbering::schedule_at(totals, number))
}

// The number for a schedule.
#[tactic(auto, using(crate::proofs::ReplyLaws::numbered_laws))]
pub fn number_for(a: usize, b: usize, turns: &[u8]) -> Result<u64, Refusal>
    ensures { result ≡ numbered_for a b turns.now }
{
    let totals = Totals::new(a, b)?;
    numbering::number_of(totals, turns).ok_or(Refusal::NotASchedule)
}

// The schedule after a given one; none where it was the last.
#[tactic(auto, using(crate::proofs::ReplyLaws::following_laws))]
pub fn schedule_after(a: usize, b: usize, turns: &[u8]) -> Result<Option<Schedule>, Refusal>
    ensures { result ≡ following_for a b turns.now }
{
    let totals = Totals::new(a, b)?;
    let next = number_for(a, b, turns)? + 1;
    if next >= totals.schedules() {
        return Ok(None);
    }
    Ok(Some(numbering::schedule_at(totals, next)))
}
