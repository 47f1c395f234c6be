// What a step leaves.
ghost use Rattle.std.specs.Prelude.{◌≡◌};
ghost use Rattle.moir_steps.specs.Items.{moved_by, moved_on};

use moir_model::{Bench, LineStep, Moved, Process, Reply};

// What a line made of its process, with the bench.
// Kept: beside `taken`'s `after_word`, which makes another type of other parts; each is one literal.
pub fn moved(bench: Bench, step: LineStep) -> Moved
    ensures { result ≡ moved_by bench step }
{
    Moved {
        bench,
        process: step.process,
        reply: step.reply,
    }
}

// The same where it does not answer.
pub fn moved_on(bench: Bench, process: Process) -> Moved
    ensures { result ≡ moved_on bench process }
{
    Moved {
        bench,
        process,
        reply: Reply::Accepted,
    }
}
