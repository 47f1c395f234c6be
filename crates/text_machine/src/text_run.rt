// The text run on this bench by value: what is lent to it, and the run of `whole_runs` on that.
ghost use Rattle.std.specs.Prelude.{◌≡◌, take};
ghost use Rattle.model.specs.Records.{no_process};
ghost use Rattle.lent.specs.Gathered.{gathered};
ghost use Rattle.text_machine.specs.Finished.{at_most_sixteen, TextRan};

use crate::carrying::LentHeld;
use text_entry::state::Held;
use text_runs::runs::Finished;
use whole_runs::texts;

// Of the lent records at most sixteen are looked at, and stored back.
pub fn records_seen(len: usize) -> usize
    ensures { result ≡ at_most_sixteen len }
{
    len.min(16)
}

// The text run, with its listing or, where `traced`, its trace: why it was refused, if it was, the entries done, the bytes
// written, where it stopped, and all memory after it.
// `held` has the first sixteen of `len` lent records, with a filler where there are fewer.
#[tactic(auto, using(crate::proofs::RunLaws::lendable_sixteen))]
pub fn run_by_value(
    held: Held,
    len: usize,
    traced: bool,
    words: &mut [u64],
    text: &[u8],
    list: &mut [u8],
) -> Finished<Held>
    requires { held.all ≡ gathered (take len held.all) no_process 16 }
    ensures { TextRan traced held len words.old text.now list.old
        result words.new list.new }
{
    let lent = LentHeld {
        held,
        len: records_seen(len),
    };
    let out = texts::run_text(lent, traced, words, text, list);
    out.holding(out.held.held)
}
