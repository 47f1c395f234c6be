// Row 9 over the whole list, as far as N and R need it.
ghost use Rattle.std.specs.Prelude.{◌≡◌, ◌+◌, ◌<◌, ◌≤◌, ◌&&◌, length};
ghost use Rattle.llsc.specs.Refusals.{number_told};
ghost use Rattle.llsc.specs.Rows.{every};
ghost use Rattle.model.specs.SetUp.{numbers};
ghost use Rattle.model.specs.Sizes.{sequence_numbers};
ghost use Rattle.model.specs.Refusals.{bank_place_ok, help_place_ok};
ghost use Rattle.station.specs.StationRefusals.{station_in_range};
ghost use Rattle.held_model.specs.Layout.{call_place, bank_place, help_place, holding_place, words_place};
ghost use Rattle.held_model.specs.Memory.{bank_from, help_from, memory_of};
ghost use Rattle.held_rows.specs.ListRows.{lent_number, LentList};
ghost use Rattle.held_rows.specs.WholeRows.{bench_from_ok, holding_from_ok, record_from_ok, call_from_ok, list_in_range, memory_number};

use crate::{layout, ranges, table};
use llsc::counts::{Processes, Width};
use llsc::refusals::Refusal;
use model::sizes;
use station::RecordNumber;
use station_rows::sizes::Sizes;

// The places of Bank of record j.
fn banks_ok(count: Processes, held: &[u64], j: RecordNumber) -> bool
    requires { words_place (j.0 + 1) ≤ length held.now }
    ensures { result ≡ every (λ i. bank_place_ok count.n (bank_from held.now (bank_place j.0 i))) (numbers 0 (sequence_numbers count.n)) }
{
    (0..sizes::sequence_numbers(count)).all(|i| {
        let place = layout::bank_place_at(j, i);
        ranges::bank_ok(count, held, place)
    })
}

// Its places of Help.
fn helps_ok(count: Processes, held: &[u64], j: RecordNumber) -> bool
    requires { words_place (j.0 + 1) ≤ length held.now }
    ensures { result ≡ every (λ p. help_place_ok count.n (help_from held.now (help_place j.0 p))) (numbers 0 count.n) }
{
    (0..count.n).all(|p| {
        let place = layout::help_place_at(j, p);
        ranges::help_ok(count, held, place)
    })
}

// Its tables.
fn bench_ok(count: Processes, held: &[u64], j: RecordNumber) -> bool
    requires { words_place (j.0 + 1) ≤ length held.now }
    ensures { result ≡ bench_from_ok held.now count.n j.0 }
{
    ranges::x_ok(count, held, layout::record_place(j))
        && banks_ok(count, held, j)
        && helps_ok(count, held, j)
}

// What the processes hold of it.
fn holdings_ok(count: Processes, held: &[u64], j: RecordNumber) -> bool
    requires { words_place (j.0 + 1) ≤ length held.now }
    ensures { result ≡ every (λ p. holding_from_ok held.now count.n (holding_place j.0 p)) (numbers 0 count.n) }
{
    (0..count.n).all(|p| {
        let place = layout::holding_place_at(j, p);
        ranges::holding_ok(count, held, place)
    })
}

// All of it.
fn record_ok(count: Processes, held: &[u64], j: RecordNumber) -> bool
    requires { words_place (j.0 + 1) ≤ length held.now }
    ensures { result ≡ record_from_ok held.now count.n j.0 }
{
    bench_ok(count, held, j) && holdings_ok(count, held, j)
}

// The R records.
fn records_ok(lent: Sizes, held: &[u64]) -> bool
    requires { words_place lent.r ≤ length held.now }
    ensures { result ≡ every (record_from_ok held.now lent.n) (numbers 0 lent.r) }
{
    let count = Processes { n: lent.n };
    (0..lent.r).all(|j| record_ok(count, held, RecordNumber(j as u8)))
}

// The open calls of the N processes.
fn calls_ok(lent: Sizes, held: &[u64]) -> bool
    requires { 131 ≤ length held.now }
    ensures { result ≡ every (λ p. call_from_ok held.now lent.n lent.w lent.r (call_place p)) (numbers 0 lent.n) }
{
    let Sizes { n, w, r } = lent;
    let count = Processes { n };
    let width = Width { w };
    (0..n).all(|p| {
        let place = layout::call_place_at(p);
        ranges::call_ok(count, width, r, held, place)
    })
}

// Row 9.
#[inline(never)]
#[tactic(auto, using(crate::proofs::WholeLaws::in_range_there))]
pub fn in_range(held: &[u64]) -> bool
    requires { LentList held.now }
    ensures { result ≡ station_in_range (memory_of held.now) }
{
    let lent = table::sizes(held);
    records_ok(lent, held) && calls_ok(lent, held)
}

// Rows 1, 2, 23, 3, 9: whether the list is in order.
pub fn memory_refusal(held: &[u64]) -> Result<(), Refusal>
    ensures { number_told result ≡ memory_number held.now }
{
    match table::lent_refusal(held) {
        Ok(()) => Refusal::NumberOutOfRange.if_holds(!in_range(held)),
        Err(refusal) => Err(refusal),
    }
}
