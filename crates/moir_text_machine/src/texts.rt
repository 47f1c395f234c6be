// The text run on Moir's bench, on a memory of its own: the run of `whole_runs` on that.
ghost use Rattle.std.specs.Prelude.{◌≡◌, replicate};
ghost use Rattle.moir_model.specs.Records.{no_process};
ghost use Rattle.moir_text_machine.specs.TextRan.{TextRan};

use crate::turns::Held;
use moir_model::Process;
use text_runs::runs::Finished;

// Its records, which are at their set-up from the start.
fn records() -> [Process; 16]
    ensures { result ≡ replicate 16 no_process }
{
    [moir_model::process_at_set_up(); 16]
}

// The words of the largest N and W.
fn no_words() -> [u64; 3136]
    ensures { result ≡ replicate 3136 0 }
{
    [0; 3136]
}

// The whole run, with a listing or a trace.
pub fn run_text(text: &[u8], traced: bool, list: &mut [u8]) -> Finished<[Process; 16]>
    ensures { TextRan traced text.now list.old result list.new }
{
    let held = Held {
        bench: moir_model::empty_bench(),
        all: records(),
    };
    let out = whole_runs::texts::run_text(held, traced, &mut no_words(), text, list);
    out.holding(out.held.all)
}
