// The access that a step makes, by the line of its process.
ghost use Rattle.std.specs.Prelude.{◌≡◌};
ghost use Rattle.model.specs.Points.{point_of};
ghost use Rattle.taken.specs.Ranges.{Ready};
ghost use Rattle.access.specs.AccessOn.{no_access, access_on};

use crate::{Access, Act, on_bank, on_help, on_words, on_x};
use doings::Item;
use lines::points;
use llsc::ProcessNumber;
use model::Process;
use taken::Taken;
use words::word_places;

// What stands for no access: an idle process makes none.
// Kept: a trace asks also at a start, and drops what it gets; an Option would be opened at each step, which has one.
fn no_access() -> Access
    ensures { result ≡ no_access }
{
    Access {
        line: 0,
        act: Act::Vl(false, Item::X),
    }
}

// From the memory before the step: the places taken out for it and the words. An idle process and a line that is none
// are never stepped.
// Kept: an arm for each point, as each names its line and the item that it looks at.
// Kept: `obey_taken` takes these to write the words; a struct for both would have its fact proved anew at each write.
#[tactic(auto, unfolding(crate::specs::AccessOn::access_on), using(crate::proofs::PlaceLaws::word_lies))]
pub fn access_of(
    n: usize,
    w: usize,
    p: ProcessNumber,
    process: Process,
    taken: Taken,
    words: &[u64],
) -> Access
    requires { Ready n w process p words.now }
    ensures { result ≡ access_on (point_of process.line) p n w taken process words.now }
{
    let k = process.word / 2;
    match process.line {
        points::LINE_1 => on_help::write(p, process),
        points::LINE_2 => on_x::ll(2, taken.x),
        points::LINE_3 => on_words::read(3, process.x.buf, w, process, words),
        points::LINE_4 => on_help::ll(4, p, taken.help),
        points::LINE_5 => on_x::ll(5, taken.x),
        points::LINE_6 => on_words::read(6, process.x.buf, w, process, words),
        points::LINE_7 => on_x::vl(7, p, taken.x),
        points::LINE_7_COPY => on_words::read(7, process.b, w, process, words),
        points::LINE_8 => on_help::ll(8, p, taken.help),
        points::LINE_9 => on_help::sc(9, p, p, process.c, taken.help),
        points::LINE_10 => on_help::read(p, taken.help),
        points::LINE_11 => {
            let from = word_places::return_word(n, w, p, k);
            on_words::write(11, from, process, words)
        }
        points::LINE_12 => on_bank::ll(taken.bank, process.x),
        points::LINE_12_VALID => on_x::vl(12, p, taken.x),
        points::LINE_13 => on_bank::sc(p, taken.bank, process.x),
        points::LINE_14 => on_help::ll_helped(n, taken.help, process),
        points::LINE_14_VALID => on_x::vl(14, p, taken.x),
        points::LINE_15 => on_help::sc_helped(n, p, taken.help, process),
        points::LINE_17 => {
            let from = word_places::offer_word(n, w, p, k);
            on_words::write(17, from, process, words)
        }
        points::LINE_18 => on_bank::read(n, taken.bank, process.x),
        points::LINE_19 => on_x::sc(n, p, taken.x, process),
        points::LINE_23 => on_x::vl(23, p, taken.x),
        _ => no_access(),
    }
}
