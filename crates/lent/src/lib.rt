// Lent records: one is read or replaced, sixteen are gathered, the first are stored back. A place past the end reads as
// another record, and there nothing is stored.

#![tactic(auto)]

ghost use Rattle.std.specs.Prelude.{◌≡◌, get_or, set};
ghost use Rattle.lent.specs.Gathered.{gathered, stored};

use std::array;

// The record at i, or another one where there is none.
pub fn record_or<T: Copy>(records: &[T], i: usize, other: T) -> T
    ensures { result ≡ get_or records.now i other }
{
    records.get(i).copied().unwrap_or(other)
}

// The record at i is replaced, where there is one.
pub fn store_at<T: Copy>(records: &mut [T], i: usize, q: T)
    ensures { records.new ≡ set records.old i q }
{
    // Kept: `get_mut` was tried; what it promises does not say how the slice is after the write.
    if i < records.len() {
        records[i] = q;
    }
}

// The first sixteen records, with another one where there is none.
pub fn gather<T: Copy>(records: &[T], none: T) -> [T; 16]
    ensures { result ≡ gathered records.now none 16 }
{
    array::from_fn(|i| record_or(records, i, none))
}

// The first n of sixteen records are stored back, where they are lent; past the sixteen, `none`.
#[tactic(auto, unfolding(crate::specs::Gathered::stored))]
pub fn store_back<T: Copy>(records: &mut [T], all: &[T], none: T, n: usize)
    ensures { records.new ≡ stored records.old all.now none n }
{
    for i in 0..n {
        store_at(records, i, record_or(all, i, none));
    }
}
