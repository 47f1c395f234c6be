// What access a step of Moir's bench makes, and what a trace shows of it. All functions are inner: the trace is made of
// them.

#![tactic(auto)]

use llsc::ProcessNumber;

pub mod access_of;
mod contents;
mod on_array;
mod on_header;
mod on_segment;
mod texts;
mod write_access;

// A shared item: the header `hdr`, segment k, `data[k]`, or word k of process q's row of A, `A[q][k]`.
#[derive(Clone, Copy)]
pub enum Item {
    Hdr,
    Data(usize),
    Announced(ProcessNumber, usize),
}

// What an item holds: the header a tag and a process, a segment a tag and a word, a word of A the word.
#[derive(Clone, Copy)]
pub enum Content {
    Tagged(u64, u64),
    Word(u64),
}

// What a step does to its item, with the values that it reads or writes; a CAS with those expected, the new ones, and the
// truth whether it was done.
#[derive(Clone, Copy)]
pub enum Act {
    Read(Content),
    Write(Content),
    Cas(Content, Content, bool),
}

// An access: the line of Figure 6, the item, the act.
// Kept: the line as a number, since a trace shows it as Figure 6 numbers its lines, and nothing chooses by it.
#[derive(Clone, Copy)]
pub struct Access {
    pub line: u8,
    pub item: Item,
    pub act: Act,
}
