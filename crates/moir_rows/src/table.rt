// The refusal table in row order (01, "When the bench says no").
ghost use Rattle.std.specs.Prelude.{◌≡◌, ◌≤◌};
ghost use Rattle.llsc.specs.Refusals.{number_told};
ghost use Rattle.moir_rows.specs.CommandRows.{lent_number, decision_number, late_number};

use crate::ranges;
use llsc::counts::{Processes, Width};
use llsc::refusals::Refusal;
use llsc::{Order, ProcessNumber};
use moir_model::{Bench, Process, sizes};
use rows::causes;
use rows::table::Lent;

// Rows 1, 2, 3, with which a command and a set-up begin: the first that holds.
// Kept: beside `rows`' own, as the words needed are Moir's, and `lent_words` asks that rows 1 and 2 don't hold.
#[tactic(auto, unfolding(crate::specs::CommandRows::lent_number))]
pub fn lent_refusal(lent: Lent) -> Result<(), Refusal>
    ensures { number_told result ≡ lent_number lent.n lent.w lent.records lent.words }
{
    let Lent {
        n,
        w,
        records,
        words,
    } = lent;
    Refusal::NOutOfRange.if_holds(causes::n_out_of_range(n))?;
    Refusal::WOutOfRange.if_holds(causes::w_out_of_range(w))?;
    let needed = sizes::lent_words(Processes { n }, Width { w });
    Refusal::TooLittleLent.if_holds(causes::too_little_lent(n, needed, records, words))
}

// The first row that holds, of sixteen records by value, of which `len` are lent.
#[tactic(auto, unfolding(crate::specs::CommandRows::lent_number, crate::specs::CommandRows::decision_number, crate::specs::CommandRows::late_number))]
pub fn refusal(
    bench: Bench,
    all: [Process; 16],
    len: usize,
    p: usize,
    order: Order,
    value: usize,
    words: usize,
) -> Result<(), Refusal>
    ensures { number_told result ≡ decision_number bench all len p order value words }
{
    let lent = Lent {
        n: bench.n,
        w: bench.w,
        records: len,
        words,
    };
    lent_refusal(lent)?;
    Refusal::NumberOutOfRange.if_holds(!ranges::in_range(bench, all))?;
    let count = Processes { n: bench.n };
    late_refusal(count, bench.w, all, p, order, value)
}

// Rows 4, 8, 5, 6, 7: all that a command can be refused for where the lent memory is in order.
#[tactic(auto, unfolding(crate::specs::CommandRows::late_number))]
fn late_refusal(
    count: Processes,
    w: usize,
    all: [Process; 16],
    p: usize,
    order: Order,
    value: usize,
) -> Result<(), Refusal>
    ensures { number_told result ≡ late_number count.n w all p order value }
{
    Refusal::NoSuchProcess.if_holds(causes::no_such_process(count.n, p))?;
    let process = all[ProcessNumber(p as u8).record_place()];
    let idle = ranges::is_idle(process);
    rows::table::call_refusal(order, w, value, idle, process.answered)
}
