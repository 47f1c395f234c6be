// One entry of a text on a held list: refused, or carried out. The loop is `whole_runs`'.
ghost use Rattle.std.specs.Prelude.{refl};
ghost use Rattle.listing.specs.Writing.{Fits, Writes};
ghost use Rattle.held_texts.specs.HeldRuns.{held_machine, held_memory, held_progress, lines, Sound};

use crate::commands;
use held_text_model::Unseen;
use listing::Writer;
use llsc::refusals::Refusal;
use notation::Entry;
use text_runs::{entries, limits, traces};
use whole_runs::entry_loop::Carrier;

// How many commands are left of those that are to be carried out.
#[derive(Clone, Copy)]
pub struct Left {
    pub left: usize,
}

// A trace's line, which shows no access.
fn trace(traced: bool, entry: usize, e: Entry, to: &mut Writer<'_>)
    requires { Fits to.old (lines traced entry e) }
    ensures { Writes to.old (lines traced entry e) to.new }
{
    if traced {
        let process = entries::process_of(e);
        traces::trace_line(Some(Unseen { process }), entry, e, false, to);
    }
}

impl Carrier for Left {
    ghost machine = { held_machine };

    ghost memory = { held_memory };

    ghost progress = { held_progress };

    ghost sound = { Sound };

    ghost lent = { λ s. 0 };

    ghost stops = { λ r k ws to. refl };

    ghost counts = { λ r k ws to. refl };

    fn turn(
        &mut self,
        traced: bool,
        done: usize,
        e: Entry,
        words: &mut [u64],
        to: &mut Writer<'_>,
    ) -> Result<bool, Refusal> {
        let room = to.list.len() - to.written;
        limits::before_entry(done, room, limits::room_needed(traced))?;
        Refusal::TooMuch.if_holds(self.left == 0)?;
        commands::carry(words, e)?;
        trace(traced, done + 1, e, to);
        self.left -= 1;
        Ok(commands::stays(words, e))
    }
}
