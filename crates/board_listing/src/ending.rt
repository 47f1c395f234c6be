// The last line of a board's run.
ghost use Rattle.std.specs.Prelude.{◌≡◌};
ghost use Rattle.board_listing.specs.ListedRun.{Closable, closed};

use listing::Writer;
use llsc::refusals::Refusal;
use text_entry::state::Held;
use text_runs::last_lines;

// A run at its end: what it holds, the commands done, the bytes written, and why it was refused, if it was.
// Kept: no `Finished` of `text_runs`, whose `ended` reports a place of a text and takes at most 60,000 entries.
#[derive(Clone, Copy)]
pub struct Stopped {
    pub held: Held,
    pub entries: usize,
    pub written: usize,
    pub outcome: Result<(), Refusal>,
}

// "The last line is `end E` or `refused C E`".
#[tactic(auto, using(text_runs::proofs::LastLaws::with_written_lem, crate::proofs::LineLaws::closable_room))]
pub fn close(stopped: Stopped, list: &mut [u8]) -> Stopped
    requires { Closable stopped list.old }
    ensures { (result, list.new) ≡ closed stopped list.old }
{
    let mut to = Writer {
        list,
        written: stopped.written,
    };
    last_lines::write(stopped.outcome, stopped.entries, &mut to);
    Stopped {
        written: to.written,
        ..stopped
    }
}
