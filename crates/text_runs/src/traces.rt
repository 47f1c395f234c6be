// The lines of a trace.
ghost use Rattle.listing.specs.Writing.{Fits, Writes};
ghost use Rattle.text_runs.specs.Parts.{shown_line};

use listing::Writer;
use notation::Entry;
use trace_parts::{Shown, Start};

// The line of an accepted entry, where `answered` says whether it answers its call; none in a run that shows no access.
pub fn trace_line<A: Shown>(
    access: Option<A>,
    entry: usize,
    e: Entry,
    answered: bool,
    to: &mut Writer<'_>,
)
    requires { Fits to.old (shown_line A.shown entry access e answered) }
    ensures { Writes to.old (shown_line A.shown entry access e answered) to.new }
{
    let Some(access) = access else {
        return;
    };
    let k = entry as u64;
    match e {
        Entry::StartLl(p) => trace_parts::start_line(to, k, p, Start::Ll),
        Entry::StartVl(p) => trace_parts::start_line(to, k, p, Start::Vl),
        Entry::StartSc(p, value) => trace_parts::start_line(to, k, p, Start::Sc(value)),
        Entry::Step(p) | Entry::Finish(p) => trace_parts::step_line(to, k, p, access, answered),
    }
}
