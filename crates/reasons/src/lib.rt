// The judge with its reason: why it says no, and what a refusal is about (02, CR 1).

#![tactic(auto)]

pub mod failing;

ghost use Rattle.std.specs.Prelude.{◌≡◌};
ghost use Rattle.verdicts.specs.Reasons.{judged_with_reason};

use judging::calls::{Admitted, Calls};
use judging::refusals;
use verdicts::Judgement;

// N, W, the value with which the object begins, and the log, 6 + W numbers for each call.
// Ruled out: a no without a reason, a reason beside a yes, a later condition or a later call in place of the first, and
// what the object answers once it has served the call.
#[tactic(auto, using(judging::proofs::RefusalLaws::taken))]
pub fn judge_with_reason(n: usize, w: usize, value: &[u64], log: &[u64]) -> Judgement
    ensures { result ≡ judged_with_reason n w value.now log.now }
{
    if let Err(refusal) = refusals::checked(n, w, value, log) {
        return Judgement::Refused(refusal);
    }
    let calls = Calls { log, w };
    let admitted = Admitted { calls };
    match failing::reason_of_no(&admitted, value) {
        Some(fault) => Judgement::No(fault),
        None => Judgement::Yes,
    }
}
