// The answer of an accepted entry and its line, in a listing and in a trace.
ghost use Rattle.std.specs.Prelude.{◌≡◌};
ghost use Rattle.listing.specs.Writing.{Fits, Writes};
ghost use Rattle.moir_text_model.specs.TextRun.{answers, named_line};
ghost use Rattle.moir_text_machine.specs.Turned.{answer_line, Listable};

use listing::Writer;
use llsc::ProcessNumber;
use moir_model::{Bench, Reply};
use moir_steps::word_places::Row;

// The line of a WLL that names a process.
#[tactic(auto, unfolding(moir_text_model::specs::TextRun::named_line), using(listing::proofs::WritingLaws::writes_then))]
fn named_line(to: &mut Writer<'_>, p: u64, count: u64, named: u64)
    requires { Fits to.old (named_line p count named) }
    ensures { Writes to.old (named_line p count named) to.new }
{
    to.answer_head(p, b'N', count);
    trace_parts::spaced(to, named);
    to.put(b'\n');
}

// The line of a reply to process p; none where there is no answer.
// Kept: an arm for each answer of Moir's own Reply, of which one names a process; the words lie in other rows.
pub fn answer_line(reply: Reply, p: u64, bench: Bench, words: &[u64], to: &mut Writer<'_>)
    requires { Listable reply p bench words.now to.old }
    ensures { Writes to.old (answer_line bench words.now p reply) to.new }
{
    match reply {
        Reply::Refused(_) | Reply::Accepted => {}
        Reply::WllAnswered(count) => {
            let from = Row::Returned(ProcessNumber(p as u8)).word(bench.n, bench.w, 0);
            to.ll_line(p, count as u64, &words[from..][..bench.w]);
        }
        Reply::WllNamed(q, count) => named_line(to, p, count as u64, q.0 as u64),
        Reply::ScAnswered(t, count) => to.truth_line(p, b'S', count as u64, t),
        Reply::VlAnswered(t, count) => to.truth_line(p, b'V', count as u64, t),
    }
}

// Whether a reply answers the call.
// Kept: the first bench's Reply is a type of its own, with answers of its own; each test names those that are none.
pub fn answers(reply: Reply) -> bool
    ensures { result ≡ answers reply }
{
    !matches!(reply, Reply::Refused(_) | Reply::Accepted)
}
