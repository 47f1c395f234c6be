// The causes for which a log is refused, and their order: 1, 2, 4, 8, 16, 17. Each tells what it is about.
ghost use Rattle.std.specs.Prelude.{◌≡◌, Some, None, cond, leb};
ghost use Rattle.verdicts.specs.Log.{Entry, entries, begun};
ghost use Rattle.verdicts.specs.Verdicts.{row8log, row16};
ghost use Rattle.verdicts.specs.Reasons.{one_at_fault, cut_off, log_refused};

use crate::calls::Calls;
use rows::causes;
use verdicts::{LogRefusal, Place};

pub const MOST_CALLS: usize = 512;

// Row 4: the first call of a process not below N, also of one that is cut off, where its first number stands.
fn no_such_process(n: usize, calls: &Calls) -> Option<usize>
    ensures { result ≡ one_at_fault (λ (e : Entry). leb n e.process) (begun calls.now.w calls.now.log.now) }
{
    let n = n as u64;
    if let Some(call) = calls.first(0, |e| n <= e.process) {
        return Some(call);
    }
    match calls.left_over() {
        [process, ..] if n <= *process => Some(calls.len()),
        _ => None,
    }
}

// Row 8: the value given, or a call that is cut off.
fn not_w_words(calls: &Calls, value: &[u64]) -> Option<Place>
    ensures { let w = calls.now.w in let log = calls.now.log.now in
        result ≡ cond (row8log w value.now log).holds (Some (cut_off w value.now log)) None }
{
    if value.len() != calls.w {
        return Some(Place::Value);
    }
    if calls.left_over().is_empty() {
        return None;
    }
    Some(Place::Call(calls.len()))
}

// Row 16.
#[tactic(auto, using(crate::proofs::CallLoops::entries_length))]
fn too_many(calls: &Calls) -> bool
    ensures { result ≡ (row16 (entries calls.now.w calls.now.log.now)).holds }
{
    calls.len() > MOST_CALLS
}

// Row 17: the first call that is not answered after its start.
fn not_after_start(calls: &Calls) -> Option<usize>
    ensures { result ≡ one_at_fault (λ (e : Entry). leb e.answer e.start) (entries calls.now.w calls.now.log.now) }
{
    calls.first(0, |e| e.answer <= e.start)
}

// Refuses for the first cause that holds.
// Kept: an `if` for each: for `or_else` each flag and place would first be made an Option of a refusal, in a closure.
#[tactic(auto, unfolding(verdicts::specs::Reasons::log_refused))]
pub fn checked(n: usize, w: usize, value: &[u64], log: &[u64]) -> Result<(), LogRefusal>
    ensures { result ≡ log_refused n w value.now log.now }
{
    if causes::n_out_of_range(n) {
        return Err(LogRefusal::NOutOfRange);
    }
    if causes::w_out_of_range(w) {
        return Err(LogRefusal::WOutOfRange);
    }
    let calls = Calls { log, w };
    if let Some(call) = no_such_process(n, &calls) {
        return Err(LogRefusal::NoSuchProcess(call));
    }
    if let Some(place) = not_w_words(&calls, value) {
        return Err(LogRefusal::ValueNotWWords(place));
    }
    if too_many(&calls) {
        return Err(LogRefusal::TooManyCalls);
    }
    if let Some(call) = not_after_start(&calls) {
        return Err(LogRefusal::AnswerNotAfterStart(call));
    }
    Ok(())
}
