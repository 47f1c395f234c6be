// When the command of a trace's line could change places with the command of the line before it (CR 13).

#![tactic(auto)]

ghost use Rattle.std.specs.Prelude.{◌≡◌};
ghost use Rattle.marking.specs.Marks.{same_item, apart, may_swap};

pub mod output;
pub mod reading;

// A shared item as a trace names it: X, a place of Bank or Help, or a half word of BUF, by its buffer, its word and which
// half it is.
// Kept: beside `doings::Item`: a trace's text may name any number, and a half of BUF by three, where an `Item` has two.
#[derive(Clone, Copy, PartialEq, Eq)]
pub enum NamedItem {
    X,
    Bank(u64),
    Help(u64),
    Half { high: bool, buffer: u64, word: u64 },
}

// The item that a step touched, and whether it only looked.
#[derive(Clone, Copy)]
pub struct Touch {
    pub item: NamedItem,
    pub looks: bool,
}

// What a line of a trace tells of its command: its process, and what it touched; a start touches nothing.
#[derive(Clone, Copy)]
pub struct Line {
    pub process: u64,
    pub touched: Option<Touch>,
}

fn same_item(a: NamedItem, b: NamedItem) -> bool
    ensures { result ≡ same_item a b }
{
    a == b
}

// "with no item in common or both only looking"
fn apart(a: Line, b: Line) -> bool
    ensures { result ≡ apart a b }
{
    match (a.touched, b.touched) {
        (Some(t), Some(u)) => !same_item(t.item, u.item) || t.looks && u.looks,
        _ => true,
    }
}

// Whether the commands of two neighbouring lines could change places; a line that is no command's has none.
pub fn may_swap(before: Option<Line>, line: Option<Line>) -> bool
    ensures { result ≡ may_swap before line }
{
    match (before, line) {
        (Some(a), Some(b)) => a.process != b.process && apart(a, b),
        _ => false,
    }
}
