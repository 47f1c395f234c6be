// A record of a trace file as an entry of a text.
ghost use Rattle.std.specs.Prelude.{◌≡◌};
ghost use Rattle.boards.specs.Files.{record_of};
ghost use Rattle.text_entry.specs.RunState.{Small};
ghost use Rattle.board_listing.specs.BoardListing.{entry_of};

use boards::records::{self, Record};
use notation::Entry;

// The entry of a record.
#[tactic(auto, using(crate::proofs::RecordLaws::entry_laws))]
pub fn entry_of(bytes: &Record) -> Entry
    ensures { (result ≡ entry_of (record_of bytes.now)) × (Small result) }
{
    let p = records::process(bytes) as u64;
    let value = records::value(bytes) as u64;
    // Kept: numbers, as `records::order` gives any byte; the definition `entry_of` says which entry each is.
    match records::order(bytes) {
        0 => Entry::Step(p),
        1 => Entry::StartLl(p),
        2 => Entry::StartSc(p, value),
        _ => Entry::StartVl(p),
    }
}
