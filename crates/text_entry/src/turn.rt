// One accepted entry, on the places taken out for it: its access, its order obeyed, its lines.
ghost use Rattle.text_entry.specs.Turned.{Turnable, Turns};

use crate::{answer_lines, entries};
use access::access_of;
use listing::Writer;
use llsc::ProcessNumber;
use model::Process;
use notation::Entry;
use steps::orders;
use taken::{Stepped, Taken};
use text_runs::{entries as text_entries, traces};

// The k-th entry of a run. What a trace shows is seen in the places before the step, and is the very step that is made.
#[tactic(auto, using(text_runs::proofs::ShownLaws::shown_if, crate::proofs::TurnLaws::turn_made))]
pub fn carry(
    traced: bool,
    k: usize,
    e: Entry,
    n: usize,
    w: usize,
    taken: Taken,
    process: Process,
    words: &mut [u64],
    to: &mut Writer<'_>,
) -> Stepped
    requires { Turnable traced k e n w taken process words.old to.old }
    ensures { Turns traced k e n w taken process words.old to.old result words.new to.new }
{
    let p = text_entries::process_of(e);
    let own = ProcessNumber(p as u8);
    let order = text_entries::order_of(e);
    let access = traced.then(|| access_of::access_of(n, w, own, process, taken, words));
    entries::offer(e, n, w, own, words);
    let stepped = orders::obey_taken(order, n, w, own, process, taken, words);
    traces::trace_line(access, k, e, answer_lines::answers(stepped.reply), to);
    answer_lines::answer_line(stepped.reply, p, n, w, words, to);
    stepped
}
