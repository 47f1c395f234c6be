// The items of a whole text, read into a list of numbers.
ghost use Rattle.std.specs.Prelude.{◌≡◌, ◌≤◌, length};
ghost use Rattle.notation.specs.Listed.{Placeable};
ghost use Rattle.whole_runs.specs.Reading.{ReadInto, is_full};

use llsc::refusals::Refusal;
use notation::items::{self, Fault, Items};
use text_runs::limits;

// How many entries the list keeps, as many as there is room for; or the fault, of which a `)` with no group is one.
#[tactic(auto, using(crate::proofs::TextLaws::reading_laws))]
pub fn read_into(text: &[u8], at: usize, entries: &mut [u64]) -> Result<usize, Fault>
    requires { (at ≤ length text.now) × (Placeable text.now) }
    ensures { ReadInto text.now at entries.old entries.new result }
{
    match items::read_items(text, at, limits::DEEPEST, entries) {
        Ok(Items::Ended(count)) => Ok(count),
        Ok(Items::Closed(next, _)) => Err(Fault {
            cause: Refusal::TextBroken,
            place: next - 1,
        }),
        Err(fault) => Err(fault),
    }
}

// Whether the list is full, so that the text may have more entries than it keeps.
pub fn is_full(read: Result<usize, Fault>, room: usize) -> bool
    ensures { result ≡ is_full read room }
{
    match read {
        Ok(count) => room <= count,
        Err(_) => false,
    }
}
