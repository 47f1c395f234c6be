// An entry on the records and the words: the record that is looked at, its value, and whether it goes on.
ghost use Rattle.std.specs.Prelude.{◌≡◌};
ghost use Rattle.text_runs.specs.TextRun.{order_of, value_of};
ghost use Rattle.taken.specs.Ranges.{Lent};
ghost use Rattle.steps.specs.Steps.{offered};
ghost use Rattle.text_entry.specs.Turned.{place_of, stays_at};

use lines::points;
use llsc::ProcessNumber;
use notation::Entry;
use words::{word_places, word_runs};

// The process whose record is looked at for a number of a text: process 0 where there is no such record.
// Kept: no Option: a turn takes a record out before row 4 is looked at; one that row 4 refuses is not used.
pub fn process_number(p: u64) -> ProcessNumber
    ensures { result ≡ record { 0 = place_of p } }
{
    ProcessNumber(if p < 16 { p as u8 } else { 0 })
}

// "`!` is steps until the call answers": whether the entry is not over with a step that leaves its process at this
// line.
pub fn stays(e: Entry, line: u8) -> bool
    ensures { result ≡ stays_at e line }
{
    matches!(e, Entry::Finish(_)) && line != points::IDLE
}

// "The value k has k in all W words": those of a start of SC into the offer area. No other entry has any.
#[tactic(auto, using(words::proofs::WordLaws::row_lies))]
pub fn offer(e: Entry, n: usize, w: usize, p: ProcessNumber, words: &mut [u64])
    requires { Lent n w p words.old }
    ensures { words.new ≡ offered (order_of e) p n w (value_of w e) words.old }
{
    let Entry::StartSc(_, k) = e else {
        return;
    };
    let at = word_places::offer_word(n, w, p, 0);
    word_runs::fill(words, at, at + w, k);
}
