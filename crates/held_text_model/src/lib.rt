// What the first commands of a text leave, on any machine and on a list that a caller holds.

#![tactic(auto)]

ghost use Rattle.held_text_model.specs.Upto.{nothing_shown};

use listing::Writer;
use trace_parts::Shown;

// What such a run shows of a step in a trace: nothing.
// Kept: a run of `whole_runs` may be traced, though none of these is.
#[derive(Clone, Copy)]
pub struct Unseen {
    pub process: u64,
}

impl Shown for Unseen {
    ghost shown = { nothing_shown };

    fn show(self, _to: &mut Writer<'_>) {}
}
