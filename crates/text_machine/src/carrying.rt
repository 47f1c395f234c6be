// One entry of a text on the bench of Figure 2: refused, or carried out where bench and records stand. The loop is
// `whole_runs`'.

ghost use Rattle.std.specs.Prelude.{refl};
ghost use Rattle.text_model.specs.TextRun.{figure2};
ghost use Rattle.text_entry.specs.RunState.{progress, Sound};
ghost use Rattle.text_machine.specs.Carried.{lent_memory, lent_state};

use listing::Writer;
use llsc::refusals::Refusal;
use model::Process;
use notation::Entry;
use text_entry::state::Held;
use text_entry::{entries, refusals, turn};
use text_runs::{entries as text_entries, limits};
use whole_runs::entry_loop::Carrier;

// What a run holds, and how many of its records are lent: the rest are fillers.
#[derive(Clone, Copy)]
pub struct LentHeld {
    pub held: Held,
    pub len: usize,
}

impl Carrier for LentHeld {
    ghost machine = { figure2 };

    ghost memory = { λ held ws. lent_memory held ws };

    ghost progress = { λ r k ws to. progress r.held.len (lent_state r k ws to) };

    ghost sound = { λ r k ws to. Sound r.held.len (lent_state r k ws to) };

    ghost lent = { λ held. held.len };

    ghost stops = { λ r k ws to. refl };

    ghost counts = { λ r k ws to. refl };

    // Bench and records are worked on where they stand: passed to another function and back, they would be copied for each
    // entry.
    fn turn(
        &mut self,
        traced: bool,
        done: usize,
        e: Entry,
        words: &mut [u64],
        to: &mut Writer<'_>,
    ) -> Result<bool, Refusal> {
        let n = self.held.bench.n;
        let w = self.held.bench.w;
        let needed = limits::room_needed(traced);
        let p = text_entries::process_of(e);
        let k = entries::process_number(p);
        let process = self.held.all[k.record_place()];
        let order = text_entries::order_of(e);
        let room = to.list.len() - to.written;
        refusals::refusal(order, done, room, needed, n, p, process)?;
        let i = taken::bank_index(n, process);
        let j = taken::help_index(n, k, process);
        let bank = self.held.bench.bank[tables::bank_place(i)];
        let help = self.held.bench.help[tables::help_place(j)];
        let places = taken::places(self.held.bench.x, bank, help);
        let turn = turn::carry(traced, done + 1, e, n, w, places, process, words, to);
        self.held.bench.x = turn.taken.x;
        self.held.bench.bank[tables::bank_place(i)] = turn.taken.bank;
        self.held.bench.help[tables::help_place(j)] = turn.taken.help;
        // Field by field: a record copied whole takes its padding along, at each entry.
        let line = turn.process.line;
        self.held.all[k.record_place()] = Process {
            line,
            ..turn.process
        };
        Ok(entries::stays(e, line))
    }
}
