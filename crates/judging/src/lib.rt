// A judge for the stations' own logs (02, CR 1).

#![tactic(auto)]

pub mod calls;
pub mod heads;
pub mod object;
pub mod order;
pub mod refusals;

ghost use Rattle.std.specs.Prelude.{◌≡◌, ◌&&◌};
ghost use Rattle.llsc.specs.Rows.{every};
ghost use Rattle.verdicts.specs.Log.{entries};
ghost use Rattle.verdicts.specs.Verdicts.{each_two, kind_known, apart, differ, inside, ll_before, served_alike};
ghost use Rattle.verdicts.specs.Verdicts.{earns_yes, judged};

use calls::{Admitted, Calls};
use verdicts::Verdict;

// Each call is of a known kind and has its moment inside.
fn each_right(calls: &Calls) -> bool
    ensures { result ≡ every (λ e. kind_known e && inside e) (entries calls.now.w calls.now.log.now) }
{
    calls.first(0, |e| !(e.known() && e.inside())).is_none()
}

// Of each two, those of one process do not overlap, and the moments differ.
fn each_two_right(calls: &Calls) -> bool
    ensures { result ≡ each_two (λ e f. apart e f && differ e f) (entries calls.now.w calls.now.log.now) }
{
    calls
        .first_two(|e, f| !(e.apart(f) && e.moment != f.moment))
        .is_none()
}

// Each SC or VL has its LL.
fn each_led(calls: &Calls) -> bool
    ensures { let es = entries calls.now.w calls.now.log.now in result ≡ every (ll_before es) es }
{
    calls.first_unled().is_none()
}

// Figure 1's object answers each call alike.
fn served_alike(admitted: &Admitted, value: &[u64]) -> bool
    ensures { result ≡ served_alike value.now (entries admitted.now.calls.w admitted.now.calls.log.now) }
{
    let order = order::sorted(admitted);
    object::first_unlike(admitted, value, &order).is_none()
}

// Whether the log earns a yes, where nothing refuses it.
#[tactic(auto, using(crate::proofs::JudgeLaws::in_order))]
fn earns(admitted: &Admitted, value: &[u64]) -> bool
    ensures { result ≡ earns_yes value.now (entries admitted.now.calls.w admitted.now.calls.log.now) }
{
    let calls = admitted.calls;
    each_right(&calls)
        && each_two_right(&calls)
        && each_led(&calls)
        && served_alike(admitted, value)
}

// The judge: N, W, the value with which the object begins, and the log, 6 + W numbers for each call.
// Ruled out: a moment at its start's place, two moments that are one, an SC or VL with no LL before it, links that a
// success leaves, 17 before 16, 513 calls.
#[tactic(auto, using(crate::proofs::RefusalLaws::taken))]
pub fn judge(n: usize, w: usize, value: &[u64], log: &[u64]) -> Verdict
    ensures { result ≡ judged n w value.now log.now }
{
    if let Err(refusal) = refusals::checked(n, w, value, log) {
        return Verdict::Refused(refusal.refusal());
    }
    let calls = Calls { log, w };
    let admitted = Admitted { calls };
    if earns(&admitted, value) {
        Verdict::Yes
    } else {
        Verdict::No
    }
}
