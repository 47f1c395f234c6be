// What access a step makes, and what a trace shows of it. All functions are inner: the trace is made of them.

#![tactic(auto)]

ghost use Rattle.std.specs.Prelude.{◌≡◌};
ghost use Rattle.access.specs.Accesses.{item_with, item_of};

use doings::Item;
use llsc::ProcessNumber;
use model::{BufferNumber, HelpContent, SequenceNumber, XContent};

pub mod access_of;
pub mod on_bank;
pub mod on_help;
pub mod on_words;
pub mod on_x;
pub mod texts;
mod trace_lines;

// A shared item with the values that are read or written there: two of X and of a place of Help, one of a place of Bank
// and of a half word.
// Kept: beside `doings::Item`: its variants with what each holds, so that item and values can't disagree.
#[derive(Clone, Copy)]
pub enum Values {
    X(XContent),
    Bank(SequenceNumber, BufferNumber),
    Help(ProcessNumber, HelpContent),
    Half(BufferNumber, usize, u64),
}

impl Values {
    // The item alone.
    #[tactic(auto, unfolding(crate::specs::Accesses::item_with))]
    pub fn item(self) -> Item
        ensures { result ≡ item_with self }
    {
        match self {
            Values::X(_) => Item::X,
            Values::Bank(i, _) => Item::Bank(i),
            Values::Help(i, _) => Item::Help(i),
            Values::Half(f, k, _) => Item::Half(f, k),
        }
    }
}

// What a step does: a read, a write, an LL and an SC with the item's values, an SC and a VL with the truth that they
// tell. A VL names no values.
#[derive(Clone, Copy)]
pub enum Act {
    Read(Values),
    Write(Values),
    Ll(Values),
    Sc(bool, Values),
    Vl(bool, Item),
}

impl Act {
    // The item that it touches.
    #[tactic(auto, unfolding(crate::specs::Accesses::item_of))]
    pub fn item(self) -> Item
        ensures { result ≡ item_of self }
    {
        match self {
            Act::Read(values) | Act::Write(values) | Act::Ll(values) | Act::Sc(_, values) =>
                values.item(),
            Act::Vl(_, item) => item,
        }
    }
}

// An access: the line of Figure 2, and the act.
// Kept: the line as a number, since a trace shows it as Figure 2 numbers its lines, and nothing chooses by it.
#[derive(Clone, Copy)]
pub struct Access {
    pub line: u8,
    pub act: Act,
}
