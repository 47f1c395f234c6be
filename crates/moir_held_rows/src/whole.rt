// Row 9 over the whole list, as far as N and W need it.
ghost use Rattle.std.specs.Prelude.{◌≡◌, ◌≤◌, length};
ghost use Rattle.llsc.specs.Refusals.{number_told};
ghost use Rattle.llsc.specs.Rows.{every};
ghost use Rattle.model.specs.SetUp.{numbers};
ghost use Rattle.moir_held_model.specs.Memory.{tag_from, process_from, memory_of};
ghost use Rattle.moir_held_model.specs.Ranges.{tag_ok, process_whole, held_in_range};
ghost use Rattle.moir_held_rows.specs.ListRows.{LentList, memory_number};

use crate::{layout, ranges, table};
use held_rows::reads::size_at;
use llsc::ProcessNumber;
use llsc::counts::{Processes, Width};
use llsc::refusals::Refusal;

// The tags of the first w segments.
fn tags_ok(held: &[u64], width: Width) -> bool
    requires { 340 ≤ length held.now }
    ensures { result ≡ every (λ k. tag_ok (tag_from held.now k)) (numbers 0 width.w) }
{
    (0..width.w).all(|k| ranges::tag_ok(held[layout::tag_place(k)]))
}

// The N processes.
fn processes_ok(held: &[u64], count: Processes, width: Width) -> bool
    requires { 340 ≤ length held.now }
    ensures { result ≡ every (λ p. process_whole count.n width.w (process_from held.now p)) (numbers 0 count.n) }
{
    (0..count.n).all(|p| ranges::process_ok(count, width, held, ProcessNumber(p as u8)))
}

// Row 9.
#[tactic(auto, using(crate::proofs::WholeLaws::in_range_there))]
pub fn in_range(held: &[u64]) -> bool
    requires { LentList held.now }
    ensures { result ≡ held_in_range (memory_of held.now) }
{
    let n = size_at(held, 0);
    let w = size_at(held, 1);
    ranges::header_ok(n, held, layout::HEADER)
        && tags_ok(held, Width { w })
        && processes_ok(held, Processes { n }, Width { w })
}

// Rows 1, 2, 3, 9: whether the list is in order.
pub fn memory_refusal(held: &[u64]) -> Result<(), Refusal>
    ensures { number_told result ≡ memory_number held.now }
{
    match table::lent_refusal(held) {
        Ok(()) => Refusal::NumberOutOfRange.if_holds(!in_range(held)),
        Err(refusal) => Err(refusal),
    }
}
