// The listing's line for an answer (01, "The listing has a line for each answer").
ghost use Rattle.std.specs.Prelude.{◌≡◌};
ghost use Rattle.listing.specs.Writing.{Writes};
ghost use Rattle.text_model.specs.TextRun.{answers};
ghost use Rattle.text_entry.specs.RunState.{answer_line, Listable};

use listing::Writer;
use llsc::ProcessNumber;
use model::Reply;
use words::word_places;

// Whether a reply answers the call.
// Kept: Moir's Reply is a type of its own, with answers of its own; each test names those that are none.
pub fn answers(reply: Reply) -> bool
    ensures { result ≡ answers reply }
{
    !matches!(reply, Reply::Refused(_) | Reply::Accepted)
}

// The line of a reply to process p; none where there is no answer.
// Kept: an arm for each answer of the bench's own Reply; Moir's has one more, and its words lie in other rows.
pub fn answer_line(reply: Reply, p: u64, n: usize, w: usize, words: &[u64], to: &mut Writer<'_>)
    requires { Listable reply p n w words.now to.old }
    ensures { Writes to.old (answer_line n w words.now p reply) to.new }
{
    match reply {
        Reply::Refused(_) | Reply::Accepted => {}
        Reply::LlAnswered(count) => {
            let from = word_places::return_word(n, w, ProcessNumber(p as u8), 0);
            to.ll_line(p, count as u64, &words[from..][..w]);
        }
        Reply::ScAnswered(t, count) => to.truth_line(p, b'S', count as u64, t),
        Reply::VlAnswered(t, count) => to.truth_line(p, b'V', count as u64, t),
    }
}
