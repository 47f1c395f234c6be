// The reader of a listing, and what its answers add to the sums of their processes. All functions are inner: `sums` is
// made of them.

#![tactic(auto)]

mod answer_lines;
mod last_lines;
pub mod numbers;
mod whole;

pub use whole::read_listing;

// What one process's answers add up to: SCs that succeeded, SCs answered, the steps of all LLs, and LLs answered.
#[repr(C)]
#[derive(Clone, Copy, PartialEq, Eq)]
pub struct Sum {
    pub successes: u64,
    pub scs: u64,
    pub steps: u64,
    pub lls: u64,
}

// No answers.
// Kept: no derived `Default`: `NO_SUM` says that nothing was answered, where `Sum::default()` would not.
pub const NO_SUM: Sum = Sum {
    successes: 0,
    scs: 0,
    steps: 0,
    lls: 0,
};

// What an answer line adds, and to the sum of which process.
#[derive(Clone, Copy)]
pub struct Gain {
    pub process: u64,
    pub sum: Sum,
}

// A listing that is wrong: the sums with the answers of its whole answer lines before the wrong one, and the place of
// its first wrong byte.
#[derive(Clone, Copy)]
pub struct Wrong {
    pub each: [Sum; 16],
    pub at: usize,
}

// What the first bytes of a text say, and the text behind them; or the text from the first wrong byte on.
pub type Read<'a, T> = Result<(T, &'a [u8]), &'a [u8]>;
