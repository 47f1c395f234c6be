// The sizes that follow from N and W, each said once.
ghost use Rattle.std.specs.Prelude.{◌≡◌};
ghost use Rattle.model.specs.Sizes.{buffers, sequence_numbers, rows_before_offers, lent_words, halves, busy_most};

use llsc::counts::{Processes, Width};

// Buffer numbers are below it.
pub fn buffers(count: Processes) -> usize
    ensures { result ≡ buffers count.n }
{
    3 * count.n
}

// Sequence numbers are below it, and Bank has as many places.
pub fn sequence_numbers(count: Processes) -> usize
    ensures { result ≡ sequence_numbers count.n }
{
    2 * count.n
}

// The rows of words before the offer areas: the buffers and the return areas.
pub fn rows_before_offers(count: Processes) -> usize
    ensures { result ≡ rows_before_offers count.n }
{
    4 * count.n
}

// The words that a set-up needs.
pub fn lent_words(count: Processes, width: Width) -> usize
    ensures { result ≡ lent_words count.n width.w }
{
    5 * count.n * width.w
}

// The moves of a run of words. Word places are below it.
pub fn halves(width: Width) -> usize
    ensures { result ≡ halves width.w }
{
    2 * width.w
}

// The highest count of a busy process.
pub fn busy_most(width: Width) -> usize
    ensures { result ≡ busy_most width.w }
{
    8 * width.w + 6
}
