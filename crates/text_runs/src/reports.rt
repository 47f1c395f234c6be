// Where a run stopped, for its messages.
ghost use Rattle.std.specs.Prelude.{◌≡◌, cond, ◌<◌, eqb, length, get_or};
ghost use Rattle.llsc.specs.Refusals.{number_told};
ghost use Rattle.text_runs.specs.StopPlaces.{at_no_item};
ghost use Rattle.text_runs.specs.KeptEntries.{word_item, word_report};

use crate::entries;
use llsc::refusals::Refusal;
use notation::entry_words;
use positions::{Item, Sizes, StopReport};

// The item that a number of the list keeps: its place, and the process of its entry. N is at most 16, so that all above 15
// are reported alike.
fn word_item(word: u64) -> Item
    ensures { result ≡ word_item word }
{
    let e = entry_words::entry_in(word);
    let place = entry_words::item_place(word);
    let process = entries::process_of(e).min(16);
    Item { place, process }
}

// The item that stopped a run at a place of its list; none where none did.
// Kept: `at` is a place of `kept` where the run was refused, as `carry_out` leaves it, and is not looked at else.
pub fn stop_report(
    n: u64,
    w: u64,
    outcome: Result<(), Refusal>,
    kept: &[u64],
    at: usize,
) -> StopReport
    requires { (number_told outcome ≡ 0 → ⊥) → at < length kept.now }
    ensures { result ≡ cond (eqb (number_told outcome) 0) (at_no_item n w) (word_report n w (get_or kept.now at 0)) }
{
    let sizes = Sizes { n, w };
    match outcome {
        Ok(()) => StopReport::AtNoItem(sizes),
        Err(_) => StopReport::AtItem(sizes, word_item(kept[at])),
    }
}
