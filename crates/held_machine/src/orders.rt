// An order that no row refuses, on the places taken out for it.
ghost use Rattle.std.specs.Prelude.{◌≡◌, ◌+◌, ◌<◌, ◌≤◌, length, drop};
ghost use Rattle.words.specs.Layouts.{layout_from};
ghost use Rattle.steps.specs.Layouts.{Offered};
ghost use Rattle.steps.specs.Steps.{offered_in, obey_on_in};
ghost use Rattle.held_machine.specs.Writes.{RowsOf, Ordered, OnWords};

use llsc::counts::Processes;
use llsc::{Order, ProcessNumber};
use model::{Process, sizes};
use station::RecordNumber;
use station_rows::sizes::Sizes;
use steps::orders;
use taken::{Stepped, Taken};
use words::layouts::FirstRows;
use words::word_runs;

// The rows at which record j's words begin.
#[inline(always)]
pub fn rows_of(lent: Sizes, j: RecordNumber) -> FirstRows
    requires { j.0 < 8 }
    ensures { RowsOf lent.n lent.w lent.r j.0 result }
{
    let each = sizes::buffers(Processes { n: lent.n });
    let records = lent.r * each;
    FirstRows {
        buffers: (j.0 as usize) * each,
        returns: records,
        offers: records + lent.n,
        w: lent.w,
    }
}

// The words of an SC's start into the offer area; no other order brings any.
#[inline(always)]
fn offer(rows: FirstRows, order: Order, p: ProcessNumber, value: &[u64], words: &mut [u64])
    requires { Offered rows order p value.now words.old }
    ensures { words.new ≡ offered_in (layout_from rows) order p rows.w value.now words.old }
{
    if let Order::StartSc = order {
        word_runs::copy_in(words, rows.offer_in(p, 0), value);
    }
}

// The order obeyed, where the words are lent alone.
#[inline(always)]
fn carried(
    rows: FirstRows,
    order: Order,
    n: usize,
    p: ProcessNumber,
    process: Process,
    taken: Taken,
    value: &[u64],
    words: &mut [u64],
) -> Stepped
    requires { Ordered rows order n p value.now process words.old }
    ensures { (result, words.new) ≡ obey_on_in (layout_from rows) order p n rows.w taken process
        (offered_in (layout_from rows) order p rows.w value.now words.old) }
{
    offer(rows, order, p, value, words);
    orders::obey_taken_in(rows, order, n, p, process, taken, words)
}

// The same on the words that a list holds from the place `at` on.
#[inline(always)]
pub fn carried_in(
    rows: FirstRows,
    order: Order,
    n: usize,
    p: ProcessNumber,
    process: Process,
    taken: Taken,
    value: &[u64],
    held: &mut [u64],
    at: usize,
) -> Stepped
    requires { (at ≤ length held.old) × Ordered rows order n p value.now process (drop at held.old) }
    ensures { OnWords held.old held.new at rows order n p value.now taken process result }
{
    carried(rows, order, n, p, process, taken, value, &mut held[at..])
}
