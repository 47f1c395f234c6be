// The whole run: set-up, file, commands, last line.
ghost use Rattle.std.specs.Prelude.{◌≡◌, ◌≤◌, false, length, take};
ghost use Rattle.llsc.specs.Refusals.{refusal_number};
ghost use Rattle.model.specs.Records.{no_process};
ghost use Rattle.lent.specs.Gathered.{gathered};
ghost use Rattle.text_machine.specs.Finished.{memory_of};
ghost use Rattle.text_runs.specs.TextRun.{room_needed};
ghost use Rattle.board_listing.specs.BoardListing.{board_listed};
ghost use Rattle.board_listing.specs.ListedRun.{fresh_state, Between, closed, refused_with, end_of, RunsFile, SetsUp};

use crate::ending::Stopped;
use crate::{ending, records};
use board_rows::right_records;
use llsc::refusals::Refusal;
use notation::First;
use text_entry::state::Held;
use text_machine::carrying::LentHeld;
use text_runs::limits;
use whole_runs::texts::Starter;

// A run that is refused before its first command.
// Kept: the room is a fact on a lent list, tested once in `run_listed`; a struct for it would be undone at each line.
#[tactic(auto, using(crate::proofs::ListedLaws::refused_closable))]
fn refused(held: Held, cause: Refusal, list: &mut [u8]) -> Stopped
    requires { (refusal_number cause ≤ 99) × (room_needed false ≤ length list.old) }
    ensures { (result, list.new) ≡ closed (refused_with held cause) list.old }
{
    let stopped = Stopped {
        held,
        entries: 0,
        written: 0,
        outcome: Err(cause),
    };
    ending::close(stopped, list)
}

// The file on a run that has done nothing: "25 and 26 also before a run".
// Kept: file, words and list come from the caller one by one, and go on so to three crates.
#[tactic(auto, using(crate::proofs::ListedLaws::file_small))]
fn run_file(held: Held, file: &[u8], words: &mut [u64], list: &mut [u8]) -> Stopped
    requires { (Between (fresh_state held words.old list.old 0)) × (room_needed false ≤ length list.old) }
    ensures { RunsFile held words.old file.now list.old result words.new list.new }
{
    match right_records(file) {
        Ok(records) => {
            let done = records::obey_records(held, records, words, list, 0);
            ending::close(done, list)
        }
        Err(cause) => refused(held, cause, list),
    }
}

// The set-up, refused or done, and then the file.
#[tactic(auto, using(crate::proofs::ListedLaws::set_up_laws))]
fn set_up_and_run(
    held: Held,
    n: usize,
    w: usize,
    initial: u32,
    file: &[u8],
    words: &mut [u64],
    list: &mut [u8],
) -> Stopped
    requires { (held.all ≡ gathered (take 16 held.all) no_process 16) × (room_needed false ≤ length list.old) }
    ensures { SetsUp (memory_of held 16 words.old) n w initial file.now list.old (end_of result words.new list.new) }
{
    let mut lent = LentHeld { held, len: 16 };
    let first = First {
        n: n as u64,
        w: w as u64,
        initial: initial as u64,
        items: 0,
    };
    if let Err(cause) = lent.set_up(first, words) {
        return refused(held, cause, list);
    }
    run_file(lent.held, file, words, list)
}

// The run as `board_listed` says, over the bench record, sixteen process records and the words that it is given: why
// it was refused, if it was, the commands done and the bytes written, all memory after it and the listing.
// Ruled out: a refused command counted as done, a listing without its last line, the value in word 0 alone, 12 after
// 60,000 commands.
#[tactic(auto, using(crate::proofs::ListedLaws::no_room, crate::proofs::ListedLaws::with_room))]
pub fn run_listed(
    held: Held,
    n: usize,
    w: usize,
    initial: u32,
    file: &[u8],
    words: &mut [u64],
    list: &mut [u8],
) -> Stopped
    requires { held.all ≡ gathered (take 16 held.all) no_process 16 }
    ensures { end_of result words.new list.new ≡ board_listed (memory_of held 16 words.old) n w initial file.now list.old }
{
    if list.len() < limits::LISTING_ROOM {
        return Stopped {
            held,
            entries: 0,
            written: 0,
            outcome: Err(Refusal::NoRoom),
        };
    }
    set_up_and_run(held, n, w, initial, file, words, list)
}
