// A text run for C with what the programs say of it on standard error: where and why it was refused, and its open calls.
ghost use Rattle.std.specs.Prelude.{◌≡◌, false, true};
ghost use Rattle.besklaun.specs.Explained.{Message, Explained};

use crate::texts::TextStop;
use arrayvec::ArrayVec;
use listing::Writer;
use messages::{Ended, figure2};
use text_entry::state::Held;
use text_runs::returned::TextRun;

// A message has fewer bytes: a line of a refusal, and sixteen of open calls.
const MOST: usize = 4096;

// A text run, its stop, and how many bytes its message has, or how many of them there was room for.
// Kept: `whole` beside `told`: a message may just fill the room.
#[repr(C)]
#[derive(Clone, Copy)]
pub struct ExplainedRun {
    pub run: TextRun,
    pub stop: TextStop,
    pub told: usize,
    pub whole: bool,
}

// How much of a message is told.
#[derive(Clone, Copy)]
struct Told {
    count: usize,
    whole: bool,
}

// As much of a run's message as there is room for.
fn tell(ended: Ended, into: &mut [u8]) -> Told
    ensures { Message ended.entry into.old result into.new }
{
    let mut message: ArrayVec<u8, MOST> = ArrayVec::new();
    let told = messages::explain(&mut message, ended).is_ok();
    let all = message.as_slice();
    let count = all.len().min(into.len());
    let mut to = Writer {
        list: into,
        written: 0,
    };
    to.plain(&all[..count]);
    Told {
        count,
        whole: told && count == all.len(),
    }
}

// A run on a bench with words enough for any text.
#[tactic(auto, using(text_machine::proofs::RecordLaws::fillers))]
fn explained(traced: bool, text: &[u8], into: &mut [u8], words: &mut [u8]) -> ExplainedRun
    ensures { Explained traced text.now into.old words.old result into.new words.new }
{
    let mut bench = [0; 5120];
    let held = Held::empty();
    let out = text_machine::text_run::run_by_value(held, 16, traced, &mut bench, text, into);
    let left = figure2::left(out.held.all);
    let ended = Ended {
        outcome: out.outcome,
        entries: out.entries,
        report: out.report,
        left,
        text,
    };
    let told = tell(ended, words);
    ExplainedRun {
        run: TextRun::from(out),
        stop: TextStop::from(out.report),
        told: told.count,
        whole: told.whole,
    }
}

// A text run with its listing, and its message.
// Wrong programs that this rules out: one that tells calls as open that were answered, or leaves one out; one that
// writes behind its message.
pub fn besklaun_explain_text(text: &[u8], listing: &mut [u8], words: &mut [u8]) -> ExplainedRun
    ensures { Explained false text.now listing.old words.old result listing.new words.new }
{
    explained(false, text, listing, words)
}

// The same with its trace.
pub fn besklaun_explain_trace(text: &[u8], trace: &mut [u8], words: &mut [u8]) -> ExplainedRun
    ensures { Explained true text.now trace.old words.old result trace.new words.new }
{
    explained(true, text, trace, words)
}
