// The refusal table over a held list: rows 1, 2, 3, and then what a command reads of it alone.
ghost use Rattle.std.specs.Prelude.{◌≡◌, ◌+◌, ◌-◌, ◌<◌, ◌≤◌, length};
ghost use Rattle.llsc.specs.Refusals.{number_told};
ghost use Rattle.held_model.specs.Memory.{number_at};
ghost use Rattle.moir_held_model.specs.Memory.{process_from, memory_of};
ghost use Rattle.moir_held_model.specs.Ranges.{near_refusal};
ghost use Rattle.moir_held_rows.specs.ListRows.{list_lent, LentList, touched_from, own_number};

use crate::{layout, ranges};
use held_rows::reads::size_at;
use llsc::counts::{Processes, Width};
use llsc::refusals::Refusal;
use llsc::{Order, ProcessNumber};
use moir_rows::table;
use rows::causes;
use rows::table::Lent;

// How much a list lends: it has numbers for sixteen processes.
pub fn lent(n: usize, w: usize, length: usize) -> Lent
    ensures { result ≡ record { n = n; w = w; records = 16; words = length - 340 } }
{
    Lent {
        n,
        w,
        records: 16,
        words: length.saturating_sub(layout::WORDS),
    }
}

// Rows 1, 2, 3.
pub fn lent_refusal(held: &[u64]) -> Result<(), Refusal>
    ensures { number_told result ≡ list_lent held.now }
{
    table::lent_refusal(lent(size_at(held, 0), size_at(held, 1), held.len()))
}

// Row 9, of what an order to process p reads.
fn touched_ok(held: &[u64], p: ProcessNumber) -> bool
    requires { LentList held.now × (p.0 < number_at held.now 0) }
    ensures { result ≡ touched_from held.now p.0 }
{
    let n = size_at(held, 0);
    let w = size_at(held, 1);
    if !ranges::header_ok(n, held, layout::HEADER)
        || !ranges::process_ok(Processes { n }, Width { w }, held, p)
    {
        return false;
    }
    let word = held[layout::process_place(p) + 1] as usize;
    ranges::tag_ok(held[layout::tag_place(word)])
}

// Rows 4, 9, 8, 5, 6, 7.
fn own_refusal(held: &[u64], p: usize, order: Order, value: usize) -> Result<(), Refusal>
    requires { LentList held.now }
    ensures { number_told result ≡ own_number held.now p order value }
{
    let n = size_at(held, 0);
    Refusal::NoSuchProcess.if_holds(causes::no_such_process(n, p))?;
    let me = ProcessNumber(p as u8);
    Refusal::NumberOutOfRange.if_holds(!touched_ok(held, me))?;
    let at = layout::process_place(me);
    let idle = held[at] == 0;
    let answered = held[at + 3] != 0;
    rows::table::call_refusal(order, size_at(held, 1), value, idle, answered)
}

// The first row that holds, by a look at what a command reads alone.
#[tactic(auto, using(llsc::proofs::RefusalNumbers::number_some, crate::proofs::ListLaws::lent_list, crate::proofs::NearRowLaws::near_refused, crate::proofs::NearRowLaws::near_own))]
pub fn near_refusal(held: &[u64], p: usize, order: Order, value: &[u64]) -> Result<(), Refusal>
    ensures { number_told result ≡ near_refusal (memory_of held.now) p order value.now }
{
    match lent_refusal(held) {
        Ok(()) => own_refusal(held, p, order, value.len()),
        Err(refusal) => Err(refusal),
    }
}
