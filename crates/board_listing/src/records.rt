// The records of a file, one command after the other, up to the first refusal.
ghost use Rattle.std.specs.Prelude.{◌≤◌, length};
ghost use Rattle.boards.specs.Places.{read};
ghost use Rattle.board_listing.specs.ListedRun.{fresh_state, stopped_state, Between, Obeys};

use crate::commands;
use crate::ending::Stopped;
use boards::records::Record;
use listing::Writer;
use text_entry::state::Held;
use text_machine::carrying::LentHeld;
use whole_runs::entry_loop::Carrier;

// Behind the bytes that are written already. Each record is an entry of a run that has done none; the commands done are
// counted here.
#[tactic(auto, using(crate::proofs::LoopLaws::first_record))]
pub fn obey_records(
    held: Held,
    records: &[Record],
    words: &mut [u64],
    list: &mut [u8],
    written: usize,
) -> Stopped
    requires { (Between (fresh_state held words.old list.old written)) × (length records.now ≤ 9999999) }
    ensures { Obeys (read records.now) (fresh_state held words.old list.old written) (stopped_state result words.new list.new) }
{
    let mut lent = LentHeld { held, len: 16 };
    let mut to = Writer { list, written };
    for (done, bytes) in records.iter().enumerate() {
        let e = commands::entry_of(bytes);
        if let Err(cause) = lent.turn(false, 0, e, words, &mut to) {
            return Stopped {
                held: lent.held,
                entries: done,
                written: to.written,
                outcome: Err(cause),
            };
        }
    }
    Stopped {
        held: lent.held,
        entries: records.len(),
        written: to.written,
        outcome: Ok(()),
    }
}
