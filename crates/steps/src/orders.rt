// What an accepted order does to its process and to the places taken out for it.
// Kept: n, p, process and taken one by one, as the definitions take them: a contract would take a struct apart.
ghost use Rattle.std.specs.Prelude.{◌≡◌};
ghost use Rattle.model.specs.Machine.{obey_in};
ghost use Rattle.words.specs.Layouts.{layout_from};
ghost use Rattle.taken.specs.Ranges.{Ready};
ghost use Rattle.steps.specs.Layouts.{ReadyIn, ObeyableIn, Offered};
ghost use Rattle.steps.specs.Steps.{offered_in, obey_on, obey_on_in};

use crate::step;
use lines::{points, records};
use llsc::{Order, ProcessNumber};
use model::{Bench, Moved, Process};
use taken::{Stepped, Taken};
use words::layouts::FirstRows;
use words::word_runs;

// LL begins at line 1, SC at line 12, with its words in the offer area already, VL at line 23.
// Inlined wherever an order is obeyed: passed and returned by memory, a process and the places cost as much as the step.
#[inline(always)]
#[tactic(auto, unfolding(crate::specs::Steps::obey_on_in))]
pub fn obey_taken_in(
    rows: FirstRows,
    order: Order,
    n: usize,
    p: ProcessNumber,
    process: Process,
    taken: Taken,
    words: &mut [u64],
) -> Stepped
    requires { ReadyIn rows n process p words.old }
    ensures { (result, words.new) ≡ obey_on_in (layout_from rows) order p n rows.w taken process words.old }
{
    let first = match order {
        Order::StartLl => points::LINE_1,
        Order::StartSc => points::LINE_12,
        Order::StartVl => points::LINE_23,
        Order::Step => return step::on_taken(rows, n, p, process, taken, words),
    };
    Stepped::accepted(taken, records::begun(first, process))
}

// The same where one record stands alone.
pub fn obey_taken(
    order: Order,
    n: usize,
    w: usize,
    p: ProcessNumber,
    process: Process,
    taken: Taken,
    words: &mut [u64],
) -> Stepped
    requires { Ready n w process p words.old }
    ensures { (result, words.new) ≡ obey_on order p n w taken process words.old }
{
    let rows = FirstRows::one_record(n, w);
    obey_taken_in(rows, order, n, p, process, taken, words)
}

// The words of an SC's start into the offer area; no other order brings any.
fn offer(rows: FirstRows, order: Order, p: ProcessNumber, value: &[u64], words: &mut [u64])
    requires { Offered rows order p value.now words.old }
    ensures { words.new ≡ offered_in (layout_from rows) order p rows.w value.now words.old }
{
    if let Order::StartSc = order {
        word_runs::copy_in(words, rows.offer_in(p, 0), value);
    }
}

// The places that the order could touch are taken out, it is obeyed on them, and all are put back.
pub fn obey_in(
    rows: FirstRows,
    order: Order,
    p: ProcessNumber,
    value: &[u64],
    bench: Bench,
    process: Process,
    words: &mut [u64],
) -> Moved
    requires { ObeyableIn rows order p value.now bench process words.old }
    ensures { (result, words.new) ≡ obey_in (layout_from rows) order p value.now bench process words.old }
{
    offer(rows, order, p, value, words);
    let n = bench.n;
    let i = taken::bank_index(n, process);
    let j = taken::help_index(n, p, process);
    let places = taken::take(bench, i, j);
    let stepped = obey_taken_in(rows, order, n, p, process, places, words);
    taken::put_back(bench, i, j, stepped)
}
