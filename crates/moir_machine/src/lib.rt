// The whole command by value: the refusal table in row order, or the order obeyed; the set-up is in `setting_up`.

#![tactic(auto)]

ghost use Rattle.moir_machine.specs.Decision.{Decides};

use llsc::refusals::Refusal;
use llsc::{Order, ProcessNumber};
use moir_model::{Bench, Moved, Process};
use moir_rows::table;
use moir_steps::orders;

pub mod setting_up;

// `all` holds the first sixteen lent records, with a filler where there are fewer; `len` is how many were lent. The caller
// stores the record of an order that is obeyed.
// Kept: p, order and value one by one: `refusal` takes any p and a length, `obey` a `ProcessNumber` and words.
#[tactic(auto, using(crate::proofs::ObeyLaws::process_lent, crate::proofs::ObeyLaws::obeyable))]
pub fn decide(
    bench: Bench,
    all: [Process; 16],
    len: usize,
    p: usize,
    order: Order,
    value: &[u64],
    words: &mut [u64],
) -> Result<Moved, Refusal>
    ensures { Decides bench all len p order value.now words.old result words.new }
{
    table::refusal(bench, all, len, p, order, value.len(), words.len())?;
    let own = ProcessNumber(p as u8);
    let process = all[own.record_place()];
    Ok(orders::obey(order, own, value, bench, process, words))
}
