// The readers of the schedule text: bytes, numbers, the first line, the beginning of an item and what follows it.
// All are inner: the text run is made of them.

#![tactic(auto)]

pub mod entry_list;
pub mod entry_words;
pub mod items;
pub mod reader;
mod turns;

ghost use Rattle.std.specs.Prelude.{◌≡◌};
ghost use Rattle.notation.specs.Bytes.{kind_of, entry_of};
ghost use Rattle.notation.specs.Readers.{HeaderSays};
ghost use Rattle.notation.specs.Cursor.{HeadSays, ReadsAs};

use reader::Reader;

// What a letter or a sign orders: `l`, `v`, `.` one step, `!` all steps until the call answers.
#[derive(Clone, Copy)]
pub enum Mark {
    Ll,
    Vl,
    One,
    All,
}

// What a byte is to the notation: a digit; a space or line feed; a mark; `s`; `(`; `)`; or none of these.
#[derive(Clone, Copy)]
pub enum Kind {
    Digit(u64),
    Gap,
    Marked(Mark),
    Offer,
    Open,
    Close,
    Other,
}

// An entry of a schedule, with its process; StartSc also with the number that stands in all words.
#[derive(Clone, Copy)]
pub enum Entry {
    StartLl(u64),
    StartVl(u64),
    StartSc(u64, u64),
    Step(u64),
    Finish(u64),
}

// The first line's N, W and initial number, and where the items begin.
#[derive(Clone, Copy)]
pub struct First {
    pub n: u64,
    pub w: u64,
    pub initial: u64,
    pub items: usize,
}

// An item that is no group, or a group's count with its `(`.
#[derive(Clone, Copy)]
pub enum Start {
    Single(Entry),
    Group(u64),
}

// What follows an item: a next one, a `)`, or the text's end.
#[derive(Clone, Copy)]
pub enum Follow {
    Item,
    Shut,
    End,
}

// What a byte is.
#[tactic(auto, unfolding(crate::specs::Bytes::kind_of))]
pub fn class(b: u8) -> Kind
    ensures { result ≡ kind_of b }
{
    match b {
        b'0'..=b'9' => Kind::Digit((b - b'0') as u64),
        b'\n' | b' ' => Kind::Gap,
        b'!' => Kind::Marked(Mark::All),
        b'(' => Kind::Open,
        b')' => Kind::Close,
        b'.' => Kind::Marked(Mark::One),
        b'l' => Kind::Marked(Mark::Ll),
        b's' => Kind::Offer,
        b'v' => Kind::Marked(Mark::Vl),
        _ => Kind::Other,
    }
}

// What a mark orders of process p.
pub fn entry_of(m: Mark, p: u64) -> Entry
    ensures { result ≡ entry_of m p }
{
    match m {
        Mark::Ll => Entry::StartLl(p),
        Mark::Vl => Entry::StartVl(p),
        Mark::One => Entry::Step(p),
        Mark::All => Entry::Finish(p),
    }
}

// N, W and the initial number, and where the items begin.
#[tactic(auto, using(crate::proofs::ReaderLaws::header_laws))]
fn header(reader: &mut Reader) -> Option<First>
    requires { reader.old.at ≡ 0 }
    ensures { ReadsAs HeadSays reader.old reader.new result }
{
    let n = reader.field(b' ')?;
    let w = reader.field(b' ')?;
    let initial = reader.field(b'\n')?;
    Some(First {
        n,
        w,
        initial,
        items: reader.at,
    })
}

// The first line: N, W and the initial number, one space between, then a line feed; or the place of the byte (or of the
// text's end) that is in the way.
pub fn first_line(text: &[u8]) -> Result<First, usize>
    ensures { HeaderSays text.now result }
{
    let mut reader = Reader { text, at: 0 };
    header(&mut reader).ok_or(reader.at)
}
