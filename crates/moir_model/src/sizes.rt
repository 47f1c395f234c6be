// The sizes that follow from N and W, each said once.
ghost use Rattle.std.specs.Prelude.{◌≡◌};
ghost use Rattle.moir_model.specs.Sizes.{lent_words, busy_most};

use llsc::counts::{Processes, Width};

// The words that a set-up needs.
pub fn lent_words(count: Processes, width: Width) -> usize
    ensures { result ≡ lent_words count.n width.w }
{
    (3 * count.n + 1) * width.w
}

// The highest count of a busy process.
// Kept: beside `model`'s own, as 01 and CR 8 give each bench a most of its own.
pub fn busy_most(width: Width) -> usize
    ensures { result ≡ busy_most width.w }
{
    6 * width.w + 1
}
