// A station that a caller holds as one lent list of numbers: where each of them stands, the memory that they stand for,
// and what a command to it tells.

#![tactic(auto)]

// What a command tells. `number` is that of the refusal, 0 for none; `kind` that of the call that was answered, 1 an LL,
// 2 an SC, 3 a VL, 0 for none; `truth` what an SC or a VL answered, and `count` the call's own steps. The words of an LL
// stand in the held list, `words` of them from the place `at` on.
// Kept: numbers in place of an enum, as C reads them.
#[repr(C)]
#[derive(Clone, Copy)]
pub struct Told {
    pub number: u8,
    pub kind: u8,
    pub truth: bool,
    pub count: usize,
    pub at: usize,
    pub words: usize,
}
