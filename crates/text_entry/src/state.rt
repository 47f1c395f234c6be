// What a run holds, by value.
ghost use Rattle.std.specs.Prelude.{◌≡◌};
ghost use Rattle.text_entry.specs.RunState.{empty_held};

use model::{Bench, Process};

// The bench record and the first sixteen process records.
#[derive(Clone, Copy)]
pub struct Held {
    pub bench: Bench,
    pub all: [Process; 16],
}

impl Held {
    // An empty bench, and no process: what a program, or the C library, has of its own.
    pub fn empty() -> Held
        ensures { result ≡ empty_held }
    {
        Held {
            bench: model::empty_bench(),
            all: [model::process_at_set_up(0); 16],
        }
    }
}
