// The reader of items and the reader of groups. Each checks what it reads and puts the entries into a list that the
// caller lends; a group is read once and its entries are copied for each further turn. The remaining depth falls with
// each group, the remaining text with each item. A text may have at most 16,777,215 bytes: 24 bits of a word keep a
// place.
ghost use Rattle.std.specs.Prelude.{◌≡◌, ◌≤◌, length};
ghost use Rattle.llsc.specs.declared.refusals.Refusal.TheVariants.{TextBroken};
ghost use Rattle.notation.specs.Stretches.{AtItem};
ghost use Rattle.notation.specs.Listed.{Opened, Placeable, ItemsSay};
ghost use Rattle.notation.specs.Cursor.{ReadsItem, ReadsGroup, ReadsItems};

use crate::entry_list::EntryList;
use crate::reader::Reader;
use crate::{Follow, Start};
use llsc::refusals::Refusal;

// Why a text is refused, 10 or 11, and the place of the fault.
#[derive(Clone, Copy)]
pub struct Fault {
    pub cause: Refusal,
    pub place: usize,
}

// Items end with the text, or with a `)` and the place after it, with their entries kept up to a place.
#[derive(Clone, Copy)]
pub enum Items {
    Ended(usize),
    Closed(usize, usize),
}

// A text that breaks the notation at a place.
fn broken(place: usize) -> Fault
    ensures { result ≡ record { cause = TextBroken; place = place } }
{
    Fault {
        cause: Refusal::TextBroken,
        place,
    }
}

// Kept: a reader, a depth and a list go apart through three readers, since the depth is each level's own.
// Kept: `Placeable` is asked, and no fact of each `Reader`, since a first line is read from a text of any length.
// A group with `n` turns, read from its `(` on, where groups may stand `depth` deep.
#[cycle(read_group_read_item_read_items)]
#[tactic(auto, using(crate::proofs::CursorLaws::group_laws))]
fn read_group(
    reader: &mut Reader,
    n: u64,
    depth: usize,
    entries: &mut EntryList,
) -> Result<(), Fault>
    requires { (Opened reader.old.text.now n reader.old.at) × (Placeable reader.old.text.now) }
    ensures { ReadsGroup n depth reader.old reader.new entries.old entries.new result }
{
    if depth == 0 {
        return Err(Fault {
            cause: Refusal::TooDeep,
            place: reader.at - 1,
        });
    }
    let from = entries.count;
    let first = read_on(reader, depth - 1, entries)?;
    match first {
        Items::Ended(_) => Err(broken(reader.text.len())),
        Items::Closed(..) => {
            entries.repeat(from, n);
            Ok(())
        }
    }
}

// An item.
#[cycle(read_group_read_item_read_items)]
#[tactic(auto, using(crate::proofs::CursorLaws::item_laws))]
fn read_item(reader: &mut Reader, depth: usize, entries: &mut EntryList) -> Result<(), Fault>
    requires { (AtItem reader.old.text.now reader.old.at) × (Placeable reader.old.text.now) }
    ensures { ReadsItem depth reader.old reader.new entries.old entries.new result }
{
    let at = reader.at;
    match reader.begin() {
        None => Err(broken(reader.at)),
        Some(Start::Single(e)) => {
            entries.keep(e, at);
            Ok(())
        }
        Some(Start::Group(n)) => read_group(reader, n, depth, entries),
    }
}

// Items up to a `)` or the end of the text.
#[cycle(read_group_read_item_read_items)]
#[tactic(auto, using(crate::proofs::CursorLaws::on_laws))]
fn read_on(reader: &mut Reader, depth: usize, entries: &mut EntryList) -> Result<Items, Fault>
    requires { Placeable reader.old.text.now }
    ensures { ReadsItems depth reader.old reader.new entries.old entries.new result }
{
    reader.skip();
    if reader.text.len() <= reader.at {
        return Ok(Items::Ended(entries.count));
    }
    loop {
        read_item(reader, depth, entries)?;
        match reader.after() {
            None => return Err(broken(reader.at)),
            Some(Follow::Item) => {}
            Some(Follow::End) => return Ok(Items::Ended(entries.count)),
            Some(Follow::Shut) => return Ok(Items::Closed(reader.at, entries.count)),
        }
    }
}

// The items of a text from a place on; their entries go into the list from its beginning on.
// Kept: a place beside its text: a first line says where its items begin, and its callers hold no reader.
pub fn read_items(text: &[u8], at: usize, depth: usize, list: &mut [u64]) -> Result<Items, Fault>
    requires { (at ≤ length text.now) × (Placeable text.now) }
    ensures { ItemsSay text.now at depth list.old list.new 0 result }
{
    let mut reader = Reader { text, at };
    let mut entries = EntryList { list, count: 0 };
    read_on(&mut reader, depth, &mut entries)
}
