// The lent words of one record alone: 5N rows of W words. Rows 0 to 3N-1 are BUF, row 3N+p is the return area of p, row
// 4N+p its offer area.
// Kept: bounds as clauses: k is of a lent record, which may hold any number; n and w callers have in `Ready` or `Lent`.
ghost use Rattle.std.specs.Prelude.{◌≡◌, ◌+◌, ◌*◌, ◌<◌, ◌≤◌, length};
ghost use Rattle.model.specs.Words.{buffer_word, return_word, offer_word, half, with_half, copied_half};

use crate::layouts::{FirstRows, word_of_row};
use llsc::ProcessNumber;
use model::BufferNumber;

// Where word k of BUF[b] lies.
pub fn buffer_word(w: usize, b: BufferNumber, k: usize) -> usize
    requires { (w ≤ 64) × (k < 64) }
    ensures { result ≡ buffer_word w b k }
{
    word_of_row(b.0 as usize, w, k)
}

// Where word k of p's return area lies.
// Kept: beside `offer_word`, as 01 names both areas; what they share is `FirstRows`.
pub fn return_word(n: usize, w: usize, p: ProcessNumber, k: usize) -> usize
    requires { (n ≤ 16) × ((w ≤ 64) × (k < 64)) }
    ensures { result ≡ return_word n w p k }
{
    FirstRows::one_record(n, w).return_in(p, k)
}

// Where word k of p's offer area lies.
pub fn offer_word(n: usize, w: usize, p: ProcessNumber, k: usize) -> usize
    requires { (n ≤ 16) × ((w ≤ 64) × (k < 64)) }
    ensures { result ≡ offer_word n w p k }
{
    FirstRows::one_record(n, w).offer_in(p, k)
}

// How many values a half word has.
pub const HALF_VALUES: u64 = 4294967296;

// The half of place k, low where k is even, of the word v.
pub fn half(k: usize, v: u64) -> u64
    ensures { result ≡ half k v }
{
    if k % 2 == 0 {
        v % HALF_VALUES
    } else {
        v / HALF_VALUES
    }
}

// The word v with the half of place k taken from u.
pub fn with_half(k: usize, u: u64, v: u64) -> u64
    ensures { result ≡ with_half k u v }
{
    if k % 2 == 0 {
        v / HALF_VALUES * HALF_VALUES + u % HALF_VALUES
    } else {
        u / HALF_VALUES * HALF_VALUES + v % HALF_VALUES
    }
}

// One half of a word is copied. Both words are places that the functions above give.
// Kept: two places in all words, as `word_runs` has them.
pub fn copy_half(words: &mut [u64], k: usize, from: usize, to: usize)
    requires { (from < length words.old) × (to < length words.old) }
    ensures { words.new ≡ copied_half words.old k from to }
{
    words[to] = with_half(k, words[from], words[to]);
}
