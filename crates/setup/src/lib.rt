// The parts of a set-up by value (01, "Set-up"). Memory beyond what N and W need stays.

#![tactic(auto)]

ghost use Rattle.std.specs.Prelude.{◌≡◌, ◌+◌, ◌≤◌, ◌<◌, length};
ghost use Rattle.llsc.specs.Refusals.{number_told};
ghost use Rattle.model.specs.Sizes.{sequence_numbers};
ghost use Rattle.model.specs.SetUp.{bench_at_set_up, process_at_set_up, words_at_set_up};
ghost use Rattle.setup.specs.SetUpByValue.{set_up_number, banks_set, helps_set, Accepted};

use llsc::ProcessNumber;
use llsc::counts::{Processes, Width};
use llsc::refusals::Refusal;
use model::{Bench, Process, SequenceNumber, sizes};
use rows::table::{self, Lent};
use words::word_runs;

// The refusal by the lengths of what is lent: rows 1, 2, 3, 8.
// Kept: beside `moir_machine`'s own, as rows 1 to 3 are its own bench's; what is left of each is row 8.
#[tactic(auto, unfolding(crate::specs::SetUpByValue::set_up_number, rows::specs::CommandRows::lent_number))]
pub fn set_up_refusal(lent: Lent, value: usize) -> Result<(), Refusal>
    ensures { number_told result ≡ set_up_number lent.n lent.w lent.records lent.words value }
{
    table::lent_refusal(lent)?;
    Refusal::ValueNotWWords.if_holds(value != lent.w)
}

// Bank[k] = k, below n.
#[tactic(auto, using(crate::proofs::SetUpLaws::banks_next))]
fn with_banks(mut bench: Bench, n: usize) -> Bench
    requires { n ≤ 32 }
    ensures { result ≡ banks_set bench n }
{
    for k in 0..n {
        let place = model::bank_at_set_up(k as u8);
        bench = tables::put_bank(bench, SequenceNumber(k as u8), place);
    }
    bench
}

// Help[p] = (0, 0), below N.
#[tactic(auto, using(crate::proofs::SetUpLaws::helps_next))]
fn with_helps(mut bench: Bench, count: Processes) -> Bench
    ensures { result ≡ helps_set bench count.n }
{
    let place = model::help_at_set_up();
    for p in 0..count.n {
        bench = tables::put_help(bench, ProcessNumber(p as u8), place);
    }
    bench
}

// X = (0, 0), the tables, no links.
pub fn bench_at_set_up(bench: Bench, count: Processes, w: usize) -> Bench
    ensures { result ≡ bench_at_set_up bench count.n w }
{
    let x = model::x_at_set_up();
    let mut next = tables::put_x(
        with_helps(with_banks(bench, sizes::sequence_numbers(count)), count),
        x,
    );
    next.n = count.n;
    next.w = w;
    next
}

// BUF[0] = the value, every other word 0.
#[tactic(auto, using(crate::proofs::SetUpLaws::words_set))]
pub fn words_at_set_up(words: &mut [u64], n: usize, w: usize, value: &[u64])
    requires { Accepted n w (length words.old) (length value.now) }
    ensures { words.new ≡ words_at_set_up words.old n w value.now }
{
    word_runs::copy_in(words, 0, value);
    let needed = sizes::lent_words(Processes { n }, Width { w });
    word_runs::fill(words, w, needed, 0);
}

// The record of process p, which owns buffer 2N + p.
pub fn record_at_set_up(count: Processes, p: ProcessNumber) -> Process
    requires { p.0 < 16 }
    ensures { result ≡ process_at_set_up (sequence_numbers count.n + p.0) }
{
    model::process_at_set_up((sizes::sequence_numbers(count) + p.0 as usize) as u8)
}
