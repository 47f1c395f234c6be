// One entry of a run: refused, or carried out with its lines.
ghost use Rattle.std.specs.Prelude.{◌≡◌, ◌+◌, refl};
ghost use Rattle.text_runs.specs.TextRun.{commanded, order_of, value_of};
ghost use Rattle.whole_runs.specs.Carrying.{in_run};
ghost use Rattle.moir_model.specs.Machine.{obey};
ghost use Rattle.moir_steps.specs.Ranges.{Obeyable};
ghost use Rattle.moir_text_model.specs.TextRun.{figure6};
ghost use Rattle.moir_text_machine.specs.RunState.{memory_of, progress, Sound, Free};

use crate::{entries, written_lines};
use listing::Writer;
use llsc::ProcessNumber;
use llsc::refusals::Refusal;
use moir_access::access_of;
use moir_model::{Bench, Moved, Process};
use moir_rows::table;
use moir_steps::orders;
use notation::Entry;
use text_runs::entries::{order_of, process_of};
use text_runs::{limits, lists, traces};
use whole_runs::entry_loop::Carrier;

// What a run holds: bench and records.
// Kept: beside `text_entry`'s own, as one for both would have a type parameter for each field.
#[derive(Clone, Copy)]
pub struct Held {
    pub bench: Bench,
    pub all: [Process; 16],
}

// The order of an entry, obeyed with the words that it brings.
#[tactic(auto, using(crate::proofs::EntryLaws::value_some, crate::proofs::SetUpLaws::prefix_length))]
fn obeyed(e: Entry, p: ProcessNumber, bench: Bench, process: Process, words: &mut [u64]) -> Moved
    requires { Obeyable (order_of e) p (value_of bench.w e) bench process words.old }
    ensures { (result, words.new) ≡ obey (order_of e) p (value_of bench.w e) bench process words.old }
{
    let order = order_of(e);
    match entries::value_of(e) {
        Some(k) => {
            let value = lists::repeated(k);
            orders::obey(order, p, &value[..bench.w], bench, process, words)
        }
        None => orders::obey(order, p, &[], bench, process, words),
    }
}

// The next entry after so many, that nothing refuses. What a trace shows is seen in the memory before the command.
fn accepted(
    held: &mut Held,
    traced: bool,
    done: usize,
    e: Entry,
    words: &mut [u64],
    to: &mut Writer<'_>,
)
    requires { Free e (progress (in_run held.old done traced) 0 words.old to.old) }
    ensures is { progress (in_run held.new (done + 1) traced) 0 words.new to.new ≡
        commanded figure6 e (progress (in_run held.old done traced) 0 words.old to.old) }
    ensures same_list { to.new.list.ghost_name ≡ to.old.list.ghost_name }
{
    let bench = held.bench;
    let p = process_of(e);
    let own = ProcessNumber(p as u8);
    let place = own.record_place();
    let process = held.all[place];
    let access = traced.then(|| access_of::access_of(bench, own, process, words));
    let moved = obeyed(e, own, bench, process, words);
    let k = done + 1;
    traces::trace_line(access, k, e, written_lines::answers(moved.reply), to);
    written_lines::answer_line(moved.reply, p, moved.bench, words, to);
    held.bench = moved.bench;
    held.all[place] = moved.process;
}

impl Carrier for Held {
    ghost machine = { figure6 };

    ghost memory = { λ held ws. memory_of held ws };

    ghost progress = { λ r k ws to. progress r k ws to };

    ghost sound = { λ r k ws to. Sound (progress r k ws to) };

    ghost lent = { λ held. 16 };

    ghost stops = { λ r k ws to. refl };

    ghost counts = { λ r k ws to. refl };

    // "before each entry 12, then 14", then the rows of its command; or it is carried out. "After a refused entry nothing
    // more runs."
    #[tactic(auto, using(crate::proofs::TurnLaws::turn_laws))]
    fn turn(
        &mut self,
        traced: bool,
        done: usize,
        e: Entry,
        words: &mut [u64],
        to: &mut Writer<'_>,
    ) -> Result<bool, Refusal> {
        let needed = limits::room_needed(traced);
        limits::before_entry(done, to.list.len() - to.written, needed)?;
        let p = process_of(e) as usize;
        let order = order_of(e);
        let count = entries::words_of(e, self.bench.w);
        table::refusal(self.bench, self.all, 16, p, order, count, words.len())?;
        accepted(self, traced, done, e, words, to);
        Ok(entries::stays(e, self.all))
    }
}
