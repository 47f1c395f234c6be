// A whole text run by value, on any bench (01, "When the bench says no"): "A text run takes 14 at its start, then 12 for
// length, then 10 and 11 over the whole text, then 1, 2, 3, then the set-up, then the entries".
ghost use Rattle.std.specs.Prelude.{◌≡◌, ◌+◌, ◌≤◌, ℕ, List, Bool, OnOk, length};
ghost use Rattle.listing.specs.declared.Writer.{Writer};
ghost use Rattle.notation.specs.Grammar.{largest};
ghost use Rattle.text_runs.specs.declared.runs.Run.{Run};
ghost use Rattle.text_runs.specs.Runs.{last_room};
ghost use Rattle.whole_runs.specs.Carrying.{in_run};
ghost use Rattle.text_runs.specs.StopPlaces.{StopInText};
ghost use Rattle.text_runs.specs.KeptEntries.{FarRefused, entries_in, places_in, started_with, report_with, says_after};
ghost use Rattle.whole_runs.specs.Reading.{Told, read_with, read_report};
ghost use Rattle.whole_runs.specs.Whole.{Headed, Roomy, Prepared, Lasting, Ran, progress_with, end_of};

use crate::entry_loop::{self, Carrier};
use crate::reading;
use listing::Writer;
use llsc::refusals::Refusal;
use notation::First;
use notation::items::Fault;
use positions::{Sizes, StopReport};
use text_runs::runs::{self, Finished, Run};
use text_runs::{limits, lists, reports};

// What a bench holds of a run, with which it is set up too.
pub trait Starter: Carrier {
    // What may be lent to a run.
    ghost lendable: { Self → Type 0 };

    // The set-up with the first line's numbers. The value is looked at only where W is in its range.
    fn set_up(&mut self, first: First, words: &mut [u64]) -> Result<(), Refusal>
        requires { (lendable self.old) × (first.initial ≤ largest) }
        ensures is { Prepared Self.machine first (Self.memory self.old words.old) result (Self.memory self.new words.new) }
        ensures sound { OnOk result ((t : Bool) (to : Writer) → to.written + last_room ≤ length to.list.now → Self.sound (in_run self.new 0 t) 0 words.new to) }
        ensures kept { (length words.new ≡ length words.old) × (lendable self.new) × (Self.lent self.new ≡ Self.lent self.old) };

    ghost held: { (r : Run Self) (k : ℕ) (ws : List ℕ) (to : Writer) → Self.progress r k ws to ≡ progress_with Self.machine (Self.memory r.held ws) r k to };

    ghost lasting: { (r : Run Self) (k : ℕ) (ws : List ℕ) (to : Writer) → Self.sound r k ws to → Lasting r.entries k to (lendable r.held) };

    ghost far: { (m : Self.machine.Memory) → FarRefused Self.machine m };
}

// "then 1, 2, 3, then the set-up, then the entries": those of the list.
// Kept: `held` and `traced` one by one, here and in `checked`: a run that is refused hands back `held` alone.
#[tactic(auto, using(crate::proofs::StopLaws::stop_within))]
fn started<B: Starter>(
    held: B,
    traced: bool,
    first: First,
    entries: &[u64],
    words: &mut [u64],
    list: &mut [u8],
) -> Finished<B>
    requires { (B.lendable held) × (Roomy list.old) × (first.initial ≤ largest) }
    ensures is { end_of B.machine result (B.memory result.held words.new) list.new
        ≡ started_with B.machine traced first.n first.w first.initial (entries_in entries.now) (B.memory held words.old) list.old }
    ensures report { result.report ≡ report_with B.machine traced first.n first.w first.initial (entries_in entries.now) (places_in entries.now) (B.memory held words.old) list.old }
    ensures kept { (B.lendable result.held) × (B.lent result.held ≡ B.lent held) }
{
    let mut held = held;
    if let Err(cause) = held.set_up(first, words) {
        let sizes = Sizes {
            n: first.n,
            w: first.w,
        };
        return runs::refused(held, cause, StopReport::AtNoItem(sizes), list);
    }
    let run = Run::fresh(held, traced);
    let mut to = Writer { list, written: 0 };
    let carried = entry_loop::carry_out(run, entries, words, &mut to);
    let outcome = carried.outcome;
    let report = reports::stop_report(first.n, first.w, outcome, entries, carried.at);
    let run = carried.run;
    runs::ended(run.held, run.entries, outcome, report, &mut to)
}

// A text whose items are read into a list: refused at its fault, or its entries carried out.
fn carried_on<B: Starter>(
    held: B,
    traced: bool,
    first: First,
    read: Result<usize, Fault>,
    entries: &[u64],
    words: &mut [u64],
    list: &mut [u8],
) -> Finished<B>
    requires { (B.lendable held) × (Roomy list.old) × (first.initial ≤ largest) × (Told read (length entries.now)) }
    ensures is { end_of B.machine result (B.memory result.held words.new) list.new
        ≡ read_with B.machine traced first read entries.now (B.memory held words.old) list.old }
    ensures report { result.report ≡ read_report B.machine traced first read entries.now (B.memory held words.old) list.old }
    ensures kept { (B.lendable result.held) × (B.lent result.held ≡ B.lent held) }
{
    match read {
        Ok(count) => started(held, traced, first, &entries[..count], words, list),
        Err(fault) => {
            let report = StopReport::AtFault(fault.place);
            runs::refused(held, fault.cause, report, list)
        }
    }
}

// "then 10 and 11 over the whole text", of any length: its items are read once, into a list that is long enough for all.
// Kept: never inlined: a caller that needs no such list has no room of its size to go over on the stack.
#[inline(never)]
#[tactic(auto, using(crate::proofs::TextLaws::read_told))]
fn checked_in_full<B: Starter>(
    held: B,
    traced: bool,
    first: First,
    words: &mut [u64],
    text: &[u8],
    list: &mut [u8],
) -> Finished<B>
    requires { (B.lendable held) × (Roomy list.old) × (Headed text.now first) }
    ensures is { end_of B.machine result (B.memory result.held words.new) list.new
        ≡ says_after B.machine traced text.now first.n first.w first.initial first.items (B.memory held words.old) list.old }
    ensures report { StopInText B.machine traced (B.memory held words.old) text.now list.old result.report }
    ensures kept { (B.lendable result.held) × (B.lent result.held ≡ B.lent held) }
{
    let mut entries = lists::full_list();
    let read = reading::read_into(text, first.items, &mut entries);
    carried_on(held, traced, first, read, &entries, words, list)
}

// "then 10 and 11 over the whole text": the items of a short text are read into a short list, which is enough if it is
// not full then.
// Kept: text ends here, words and list go on to the loop: a struct of the three would be taken apart by this function.
#[tactic(auto, using(crate::proofs::TextLaws::read_told))]
fn checked<B: Starter>(
    held: B,
    traced: bool,
    first: First,
    words: &mut [u64],
    text: &[u8],
    list: &mut [u8],
) -> Finished<B>
    requires { (B.lendable held) × (Roomy list.old) × (Headed text.now first) }
    ensures is { end_of B.machine result (B.memory result.held words.new) list.new
        ≡ says_after B.machine traced text.now first.n first.w first.initial first.items (B.memory held words.old) list.old }
    ensures report { StopInText B.machine traced (B.memory held words.old) text.now list.old result.report }
    ensures kept { (B.lendable result.held) × (B.lent result.held ≡ B.lent held) }
{
    if text.len() <= limits::SHORT_TEXT {
        let mut entries = lists::short_list();
        let read = reading::read_into(text, first.items, &mut entries);
        if !reading::is_full(read, entries.len()) {
            return carried_on(held, traced, first, read, &entries, words, list);
        }
    }
    checked_in_full(held, traced, first, words, text, list)
}

// The text run, with its listing or, where `traced`, its trace: why it was refused, if it was, the entries done, the bytes
// written, where it stopped, and what the bench holds after it.
#[tactic(auto, using(crate::proofs::WholeLaws::text_laws))]
pub fn run_text<B: Starter>(
    held: B,
    traced: bool,
    words: &mut [u64],
    text: &[u8],
    list: &mut [u8],
) -> Finished<B>
    requires { B.lendable held }
    ensures ran { Ran B.machine traced text.now list.old (B.memory held words.old) result (B.memory result.held words.new) list.new }
    ensures kept { (B.lendable result.held) × (B.lent result.held ≡ B.lent held) }
{
    if list.len() < limits::room_needed(traced) {
        return Finished::unwritten(held);
    }
    if limits::LONGEST_TEXT < text.len() {
        return runs::refused(held, Refusal::TooMuch, StopReport::NotRead, list);
    }
    match notation::first_line(text) {
        Err(place) => {
            let report = StopReport::AtFault(place);
            runs::refused(held, Refusal::TextBroken, report, list)
        }
        Ok(first) => checked(held, traced, first, words, text, list),
    }
}
