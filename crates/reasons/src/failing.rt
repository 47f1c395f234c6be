// The six conditions of a yes, looked at in the order of the request.
ghost use Rattle.std.specs.Prelude.{◌≡◌, not};
ghost use Rattle.verdicts.specs.Log.{entries};
ghost use Rattle.verdicts.specs.Verdicts.{kind_known, apart, differ, inside};
ghost use Rattle.verdicts.specs.Reasons.{one_at_fault, two_at_fault, at_one, at_two, reason_of_no};
ghost use Rattle.verdicts.specs.declared.Fault.TheVariants.{Unknown, Overlap, Moment, Outside};

use judging::calls::{Admitted, Calls};
use judging::{object, order};
use verdicts::Fault;

// Condition 1: the first call of no known kind.
fn unknown(calls: &Calls) -> Option<Fault>
    ensures { let es = entries calls.now.w calls.now.log.now in
        result ≡ at_one Unknown (one_at_fault (λ e. not (kind_known e)) es) }
{
    calls.first(0, |e| !e.known()).map(Fault::Unknown)
}

// Condition 2: the first two calls of one process that overlap.
fn overlap(calls: &Calls) -> Option<Fault>
    ensures { let es = entries calls.now.w calls.now.log.now in
        result ≡ at_two Overlap (two_at_fault (λ e f. not (apart e f)) 0 es) }
{
    calls
        .first_two(|e, f| !e.apart(f))
        .map(|(call, other)| Fault::Overlap(call, other))
}

// Condition 3: the first two calls with one moment.
fn one_moment(calls: &Calls) -> Option<Fault>
    ensures { let es = entries calls.now.w calls.now.log.now in
        result ≡ at_two Moment (two_at_fault (λ e f. not (differ e f)) 0 es) }
{
    calls
        .first_two(|e, f| e.moment == f.moment)
        .map(|(call, other)| Fault::Moment(call, other))
}

// Condition 4: the first call whose moment lies outside it.
fn outside(calls: &Calls) -> Option<Fault>
    ensures { let es = entries calls.now.w calls.now.log.now in
        result ≡ at_one Outside (one_at_fault (λ e. not (inside e)) es) }
{
    calls.first(0, |e| !e.inside()).map(Fault::Outside)
}

// The first condition that fails, where nothing refuses the log.
// Kept: an `if let` for each: tried by `or_else`, where the check does not find what the chain of closures answers.
#[tactic(auto, unfolding(verdicts::specs::Reasons::reason_of_no))]
pub fn reason_of_no(admitted: &Admitted, value: &[u64]) -> Option<Fault>
    ensures { result ≡ reason_of_no value.now (entries admitted.now.calls.w admitted.now.calls.log.now) }
{
    let calls = admitted.calls;
    if let Some(fault) = unknown(&calls) {
        return Some(fault);
    }
    if let Some(fault) = overlap(&calls) {
        return Some(fault);
    }
    if let Some(fault) = one_moment(&calls) {
        return Some(fault);
    }
    if let Some(fault) = outside(&calls) {
        return Some(fault);
    }
    let order = order::sorted(admitted);
    if let Some(fault) = object::first_unlike(admitted, value, &order) {
        return Some(fault);
    }
    calls.first_unled().map(Fault::Unled)
}
