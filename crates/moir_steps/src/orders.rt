// What an accepted order does to its process.
ghost use Rattle.std.specs.Prelude.{◌≡◌};
ghost use Rattle.moir_model.specs.Machine.{obey};
ghost use Rattle.moir_model.specs.Records.{begin_line};
ghost use Rattle.moir_steps.specs.Items.{moved_on};
ghost use Rattle.moir_steps.specs.Ranges.{Obeyable};

use crate::word_places::Row;
use crate::{items, step};
use llsc::{Order, ProcessNumber};
use moir_lines::{points, records};
use moir_model::{Bench, Moved, Process};
use words::word_runs;

// A start at a call's first line. It touches nothing shared.
fn begun(line: u8, bench: Bench, process: Process) -> Moved
    ensures { result ≡ moved_on bench (begin_line line process) }
{
    items::moved_on(bench, records::begun(line, process))
}

// A WLL begins at line 10, an SC at line 14, with its words in the offer area, a VL at line 13.
// Kept: order, p and value one by one, as the definition takes them, and no arm takes all three.
#[tactic(auto, unfolding(moir_model::specs::Machine::obey))]
pub fn obey(
    order: Order,
    p: ProcessNumber,
    value: &[u64],
    bench: Bench,
    process: Process,
    words: &mut [u64],
) -> Moved
    requires { Obeyable order p value.now bench process words.old }
    ensures { (result, words.new) ≡ obey order p value.now bench process words.old }
{
    match order {
        Order::StartLl => begun(points::WLL_10, bench, process),
        Order::StartSc => {
            let at = Row::Offered(p).word(bench.n, bench.w, 0);
            word_runs::copy_in(words, at, value);
            begun(points::SC_14, bench, process)
        }
        Order::StartVl => begun(points::VL_13, bench, process),
        Order::Step => step::step(p, bench, process, words),
    }
}
