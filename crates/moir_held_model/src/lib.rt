// Moir's bench that a caller holds as one lent list of numbers: where each of them stands, the memory that they stand
// for, and what a command to it tells.

#![tactic(auto)]

// What a command tells. `number` is that of the refusal, 0 for none; `kind` that of the call that was answered: 1 a WLL
// with words, 2 an SC, 3 a VL, 4 a WLL that names a process, 0 none. `truth` is what an SC or a VL answered, `named` the
// process that a WLL names, `count` the call's own steps. The words of a WLL stand in the held list, `words` of them from
// the place `at` on.
// Kept: numbers in place of an enum, as C reads them.
#[repr(C)]
#[derive(Clone, Copy)]
pub struct Told {
    pub number: u8,
    pub kind: u8,
    pub truth: bool,
    pub named: u8,
    pub count: usize,
    pub at: usize,
    pub words: usize,
}
