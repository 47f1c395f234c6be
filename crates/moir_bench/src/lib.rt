// The public entries of Moir's bench: a set-up and a command over lent memory. Neither asks anything of the caller.

#![tactic(auto)]

ghost use Rattle.std.specs.Prelude.{◌≡◌};
ghost use Rattle.moir_model.specs.Command.{command};
ghost use Rattle.moir_model.specs.SetUp.{set_up};
ghost use Rattle.moir_bench.specs.Lent.{memory};

use llsc::Order;
use moir_machine::setting_up;
use moir_model::{Bench, Process, Reply};

// Process `process`, any number, is given an order, with the words of `value` where it starts an SC. The start of an LL is
// one of a WLL.
// The reply and all lent memory after it are those of the model.
// Wrong programs that this rules out: one that takes `y := z` for line 6 and so answers words never written;
// one that copies to a segment whose CAS failed; one that steps the process and stores its record at another place.
#[tactic(auto, using(moir_machine::proofs::ObeyLaws::process_lent, moir_machine::proofs::DecisionLaws::decision_law))]
pub fn command(
    bench: &mut Bench,
    records: &mut [Process],
    words: &mut [u64],
    process: usize,
    order: Order,
    value: &[u64],
) -> Reply
    ensures { (result, memory bench.new records.new words.new) ≡ command (memory bench.old records.old words.old) process order value.now }
{
    let all = lent::gather(records, moir_model::process_at_set_up());
    match moir_machine::decide(*bench, all, records.len(), process, order, value, words) {
        Ok(moved) => {
            *bench = moved.bench;
            records[process] = moved.process;
            moved.reply
        }
        Err(refusal) => Reply::Refused(refusal.number()),
    }
}

// A set-up for N = n and W = w with the given value, whatever the lent memory held. It answers the number of its
// refusal, 0 for none.
// The answer and all lent memory after it are those of the model.
// Wrong programs that this rules out: one that leaves the segments or A[0] as they were;
// one that sets up every record that is lent, and not the first N alone.
// Kept: 01 promises its users a number.
#[tactic(auto, using(crate::proofs::SetUpLaws::setting_up))]
pub fn set_up(
    bench: &mut Bench,
    records: &mut [Process],
    words: &mut [u64],
    n: usize,
    w: usize,
    value: &[u64],
) -> u8
    ensures { (result, memory bench.new records.new words.new) ≡ set_up (memory bench.old records.old words.old) n w value.now }
{
    match setting_up::prepare(*bench, records.len(), n, w, value, words) {
        Ok(next) => {
            *bench = next;
            records[..n].fill(moir_model::process_at_set_up());
            0
        }
        Err(refusal) => refusal.number(),
    }
}
