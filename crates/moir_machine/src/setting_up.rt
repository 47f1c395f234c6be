// The set-up by value. Memory beyond what N and W need stays.
ghost use Rattle.std.specs.Prelude.{◌≡◌, ◌≤◌, length, replicate};
ghost use Rattle.std.proofs.lemmas.List.Edits.{sets};
ghost use Rattle.llsc.specs.Refusals.{number_told};
ghost use Rattle.moir_model.specs.SetUp.{bench_at_set_up, words_at_set_up};
ghost use Rattle.moir_machine.specs.SetUpByValue.{set_up_number, Accepted, told, bench_left, prepared};

use llsc::counts::{Processes, Width};
use llsc::refusals::Refusal;
use moir_model::{Bench, sizes};
use moir_rows::table;
use rows::table::Lent;
use words::word_runs;

// The refusal by the lengths of what is lent: rows 1, 2, 3, 8.
// Kept: beside `setup`'s own, whose rows 1 to 3 are the first bench's; what is alike is row 8's line.
#[tactic(auto, unfolding(crate::specs::SetUpByValue::set_up_number, moir_rows::specs::CommandRows::lent_number))]
pub fn set_up_refusal(lent: Lent, value: usize) -> Result<(), Refusal>
    ensures { number_told result ≡ set_up_number lent.n lent.w lent.records lent.words value }
{
    table::lent_refusal(lent)?;
    Refusal::ValueNotWWords.if_holds(value != lent.w)
}

// The tags of the first w segments are 0.
fn clear(tags: &mut [u16], w: usize)
    requires { w ≤ length tags.old }
    ensures { tags.new ≡ sets tags.old 0 (replicate w 0) }
{
    tags[..w].fill(0);
}

// All tags are 0, the header names process 0.
pub fn bench_at_set_up(mut bench: Bench, n: usize, width: Width) -> Bench
    ensures { result ≡ bench_at_set_up bench n width.w }
{
    clear(&mut bench.tags, width.w);
    let header = moir_model::header_at_set_up();
    Bench {
        n,
        w: width.w,
        header,
        ..bench
    }
}

// A[0] and the segments hold the value, every other word is 0.
#[tactic(auto, using(crate::proofs::SetUpLaws::four_runs))]
pub fn words_at_set_up(words: &mut [u64], n: usize, w: usize, value: &[u64])
    requires { Accepted n w (length words.old) (length value.now) }
    ensures { words.new ≡ words_at_set_up words.old n w value.now }
{
    let segments = n * w;
    word_runs::copy_in(words, 0, value);
    word_runs::fill(words, w, segments, 0);
    word_runs::copy_in(words, segments, value);
    let needed = sizes::lent_words(Processes { n }, Width { w });
    word_runs::fill(words, segments + w, needed, 0);
}

// The whole set-up but for the records, of which `len` are lent: the bench after it, or why it is refused.
// Kept: len, n and w one by one: a `Lent` would have the words' length beside the words.
#[tactic(auto, using(crate::proofs::SetUpLaws::preparing))]
pub fn prepare(
    bench: Bench,
    len: usize,
    n: usize,
    w: usize,
    value: &[u64],
    words: &mut [u64],
) -> Result<Bench, Refusal>
    ensures { (told result, bench_left bench result, words.new) ≡ prepared bench len n w value.now words.old }
{
    let lent = Lent {
        n,
        w,
        records: len,
        words: words.len(),
    };
    set_up_refusal(lent, value.len())?;
    words_at_set_up(words, n, w, value);
    Ok(bench_at_set_up(bench, n, Width { w }))
}
