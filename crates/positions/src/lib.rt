// What the bytes before a place of a text come to: line and column of the place, and what a reader stands after there.

#![tactic(auto)]

ghost use Rattle.std.specs.Prelude.{◌≡◌, ◌<◌};
ghost use Rattle.positions.specs.Positions.{on_byte, seen_in, is_digit, is_gap, Small};
ghost use Rattle.positions.specs.Positions.{counted as Positions·counted};
ghost use Rattle.positions.specs.Brackets.{opens_here, closed_with, unclosed_in};

// Line feeds passed, and the bytes since the last of them: one less than line and column.
#[derive(Clone, Copy, Default)]
pub struct Seen {
    pub feeds: usize,
    pub since: usize,
    // the spaces passed
    pub spaces: usize,
    // the last byte, the one before it, the last that is no digit, and the last that is neither space nor line feed
    pub last: Option<u8>,
    pub earlier: Option<u8>,
    pub mark: Option<u8>,
    pub solid: Option<u8>,
}

// N and W, as a right text's first line has them.
#[derive(Clone, Copy)]
pub struct Sizes {
    pub n: u64,
    pub w: u64,
}

// An item of a text: its place, and the process of its entry, 16 for any number above 15.
// Kept: 16 is refused as every number above 15, and the item's own bytes show the number.
#[derive(Clone, Copy)]
pub struct Item {
    pub place: usize,
    pub process: u64,
}

// What a text run tells of its stop beside its reply, for the messages.
#[derive(Clone, Copy)]
pub enum StopReport {
    // before it looked at the text
    NotRead,
    // at a place of a text that is not right
    AtFault(usize),
    // in a right text at no item: at its first line, or at its end
    AtNoItem(Sizes),
    // at the item whose entry is refused
    AtItem(Sizes, Item),
}

// The bytes before the place, one after another.
#[tactic(auto, using(crate::proofs::PositionLaws::all_seen))]
pub fn look(before: &[u8]) -> Seen
    ensures { result ≡ seen_in before.now }
{
    let mut s = Seen::default();
    for b in before {
        s = on_byte(s, *b);
    }
    s
}

// One byte more.
#[tactic(auto, unfolding(crate::specs::Positions::on_byte))]
pub fn on_byte(s: Seen, b: u8) -> Seen
    requires { Small s }
    ensures { result ≡ on_byte b s }
{
    Seen {
        feeds: counted(s.feeds, b == b'\n'),
        since: if b == b'\n' { 0 } else { s.since + 1 },
        spaces: counted(s.spaces, b == b' '),
        last: Some(b),
        earlier: s.last,
        mark: if is_digit(b) { s.mark } else { Some(b) },
        solid: if is_gap(b) { s.solid } else { Some(b) },
    }
}

pub fn is_digit(b: u8) -> bool
    ensures { result ≡ is_digit b }
{
    b.is_ascii_digit()
}

pub fn is_gap(b: u8) -> bool
    ensures { result ≡ is_gap b }
{
    matches!(b, b' ' | b'\n')
}

fn counted(n: usize, more: bool) -> usize
    requires { n < 18446744073709551615 }
    ensures { result ≡ Positions·counted n more }
{
    if more { n + 1 } else { n }
}

// The place of the last `(` that no `)` closes, if there is one.
#[tactic(auto, using(crate::proofs::BracketLaws::unclosed_laws))]
pub fn unclosed(text: &[u8]) -> Option<usize>
    ensures { result ≡ unclosed_in text.now }
{
    let mut closed = 0;
    for i in (0..text.len()).rev() {
        let b = text[i];
        if opens_here(b, closed) {
            return Some(i);
        }
        closed = closed_with(b, closed);
    }
    None
}

fn opens_here(b: u8, closed: usize) -> bool
    ensures { result ≡ opens_here b closed }
{
    b == b'(' && closed == 0
}

// How many `(` are closed by what follows.
fn closed_with(b: u8, closed: usize) -> usize
    requires { closed < 18446744073709551615 }
    ensures { result ≡ closed_with b closed }
{
    match b {
        b')' => closed + 1,
        b'(' => closed.saturating_sub(1),
        _ => closed,
    }
}
