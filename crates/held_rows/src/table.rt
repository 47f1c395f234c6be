// The refusal table over a held list: rows 1, 2, 23, 3, and then what a command reads of it alone.
ghost use Rattle.std.specs.Prelude.{◌≡◌, ◌+◌, ◌<◌, ◌≤◌, length, drop};
ghost use Rattle.llsc.specs.Refusals.{number_told};
ghost use Rattle.taken.specs.Ranges.{Ready};
ghost use Rattle.station.specs.Projection.{at_rest};
ghost use Rattle.station.specs.StationRefusals.{record_about, row24, called_ok};
ghost use Rattle.held_model.specs.Layout.{words_place};
ghost use Rattle.held_model.specs.Memory.{number_at, held_from, process_in, memory_of};
ghost use Rattle.held_model.specs.Near.{near_refusal};
ghost use Rattle.held_rows.specs.Reads.{seen_from};
ghost use Rattle.held_rows.specs.ListRows.{lent_number, LentList, places_from, touched_from, own_number};

use crate::{layout, ranges, reads};
use llsc::counts::{Processes, Width};
use llsc::refusals::Refusal;
use llsc::{Order, ProcessNumber};
use model::Process;
use rows::causes;
use station::RecordNumber;
use station_rows::sizes::Sizes;

// Rows 1, 2, 23, 3. A list has numbers for sixteen processes.
#[inline(always)]
pub fn lent_refusal(held: &[u64]) -> Result<(), Refusal>
    ensures { number_told result ≡ lent_number held.now }
{
    let r = reads::size_at(held, 2);
    let room = layout::room(held.len(), r);
    station_rows::table::lent_refusal(
        reads::size_at(held, 0),
        reads::size_at(held, 1),
        r,
        16,
        room,
    )
}

// N, W and R.
#[inline(always)]
pub fn sizes(held: &[u64]) -> Sizes
    requires { LentList held.now }
    ensures n { result.n ≡ number_at held.now 0 }
    ensures w { result.w ≡ number_at held.now 1 }
    ensures r { result.r ≡ number_at held.now 2 }
{
    Sizes {
        n: held[0] as usize,
        w: held[1] as usize,
        r: held[2] as usize,
    }
}

// Whether process p has no open call.
#[inline(always)]
fn is_at_rest(held: &[u64], p: ProcessNumber) -> bool
    requires { (p.0 < 16) × (131 ≤ length held.now) }
    ensures { result ≡ at_rest (process_in (number_at held.now 2) held.now p.0) }
{
    held[layout::call_place(p)] == 0
}

// The open call's record is below R, and 0 when idle.
#[inline(always)]
pub fn called_ok(held: &[u64], r: usize, p: ProcessNumber) -> bool
    requires { (p.0 < 16) × (131 ≤ length held.now) }
    ensures { result ≡ called_ok r (process_in (number_at held.now 2) held.now p.0) }
{
    let called = held[layout::call_place(p) + 3];
    called < r as u64 && (!is_at_rest(held, p) || called == 0)
}

// Row 24. Only a start names a record.
#[inline(always)]
fn no_such_record(order: Order, r: usize, named: usize) -> bool
    ensures { result ≡ (row24 order r named).holds }
{
    llsc::is_start(order) && r <= named
}

// The record that an order is about: a start's own, a step's that of the open call.
#[inline(always)]
pub fn record_about(held: &[u64], order: Order, named: usize, p: ProcessNumber) -> usize
    requires { (p.0 < 16) × (131 ≤ length held.now) }
    ensures { result ≡ (record_about order named (process_in (number_at held.now 2) held.now p.0)).0 }
{
    if llsc::is_start(order) {
        named
    } else {
        held[layout::call_place(p) + 3] as usize
    }
}

// Whether an LL of process p was answered, on record j.
#[inline(always)]
fn is_answered(held: &[u64], j: RecordNumber, p: ProcessNumber) -> bool
    requires { (p.0 < 16) × (words_place (j.0 + 1) ≤ length held.now) }
    ensures { result ≡ (held_from held.now p.0 j.0).answered }
{
    held[layout::holding_place(j, p) + 3] != 0
}

// The places that an order to process p could touch, where record j's bench has it so.
#[inline(always)]
fn places_ok(held: &[u64], sizes: Sizes, j: RecordNumber, p: ProcessNumber, q: Process) -> bool
    requires { (words_place (j.0 + 1) ≤ length held.now) × Ready sizes.n sizes.w q p (drop (words_place sizes.r) held.now) }
    ensures { result ≡ places_from held.now sizes.n j.0 p.0 q }
{
    let count = Processes { n: sizes.n };
    let bank = taken::bank_index(sizes.n, q);
    let help = taken::help_index(sizes.n, p, q);
    ranges::x_ok(count, held, layout::record_place(j))
        && ranges::bank_ok(count, held, layout::bank_place(j, bank))
        && ranges::help_ok(count, held, layout::help_place(j, help))
}

// Row 9, of what an order to process p could touch of record j.
#[inline(always)]
#[tactic(auto, using(crate::proofs::ListLaws::list_ready, crate::proofs::FitLaws::process_fits))]
fn touched_ok(held: &[u64], j: RecordNumber, p: ProcessNumber) -> bool
    requires { LentList held.now × ((j.0 < number_at held.now 2) × (p.0 < number_at held.now 0)) }
    ensures { result ≡ touched_from held.now j.0 p.0 }
{
    let sizes = sizes(held);
    let Sizes { n, w, .. } = sizes;
    if !ranges::process_ok(Processes { n }, Width { w }, held, j, p) {
        return false;
    }
    places_ok(held, sizes, j, p, reads::process_at(held, j, p))
}

// Rows 4, 9 of the open call, 24, 9 of what could be touched, 8, 5, 6, 7.
#[inline(always)]
#[tactic(auto, using(crate::proofs::ListLaws::about_below))]
fn own_refusal(
    held: &[u64],
    p: usize,
    order: Order,
    named: usize,
    value: usize,
) -> Result<(), Refusal>
    requires { LentList held.now }
    ensures { number_told result ≡ own_number held.now p order named value }
{
    let Sizes { n, w, r } = sizes(held);
    Refusal::NoSuchProcess.if_holds(causes::no_such_process(n, p))?;
    let me = ProcessNumber(p as u8);
    Refusal::NumberOutOfRange.if_holds(!called_ok(held, r, me))?;
    Refusal::NoSuchRecord.if_holds(no_such_record(order, r, named))?;
    let j = RecordNumber(record_about(held, order, named, me) as u8);
    Refusal::NumberOutOfRange.if_holds(!touched_ok(held, j, me))?;
    rows::table::call_refusal(
        order,
        w,
        value,
        is_at_rest(held, me),
        is_answered(held, j, me),
    )
}

// The first row that holds, by a look at what a command reads alone.
#[inline(always)]
#[tactic(auto, using(llsc::proofs::RefusalNumbers::number_some, crate::proofs::ListLaws::lent_list, crate::proofs::NearRowLaws::near_refused, crate::proofs::NearRowLaws::near_own))]
pub fn near_refusal(
    held: &[u64],
    p: usize,
    order: Order,
    named: usize,
    value: &[u64],
) -> Result<(), Refusal>
    ensures { number_told result
        ≡ near_refusal (memory_of held.now) (record { process = p; order = order; called = named; value = value.now }) }
{
    match lent_refusal(held) {
        Ok(()) => own_refusal(held, p, order, named, value.len()),
        Err(refusal) => Err(refusal),
    }
}
