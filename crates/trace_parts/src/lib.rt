// The parts of a trace line that every bench has, put into lent bytes by a writer. All functions are inner.

#![tactic(auto)]

ghost use Rattle.std.specs.Prelude.{ℕ, List};
ghost use Rattle.listing.specs.Writing.{Fits, Writes};
ghost use Rattle.trace_parts.specs.TraceParts.{spaced, bracketed, head_text, truth_text, end_text, start_text, start_line, step_line};

use listing::Writer;

// A start of a call, with the value that an SC brings.
#[derive(Clone, Copy)]
pub enum Start {
    Ll,
    Vl,
    Sc(u64),
}

// What a trace shows of a step: each bench has items and acts of its own.
pub trait Shown: Copy {
    ghost shown: { Self → List ℕ };

    // The line of the figure, the item and the act, each with the space before it.
    fn show(self, to: &mut Writer<'_>)
        requires { Fits to.old (shown self) }
        ensures { Writes to.old (shown self) to.new };
}

#[tactic(auto, unfolding(crate::specs::TraceParts::spaced))]
pub fn spaced(to: &mut Writer<'_>, n: u64)
    requires { Fits to.old (spaced n) }
    ensures { Writes to.old (spaced n) to.new }
{
    to.put(b' ');
    to.number(n);
}

// A number in brackets.
#[tactic(auto, unfolding(crate::specs::TraceParts::bracketed), using(listing::proofs::WritingLaws::writes_then))]
pub fn bracketed(to: &mut Writer<'_>, n: u64)
    requires { Fits to.old (bracketed n) }
    ensures { Writes to.old (bracketed n) to.new }
{
    to.put(b'[');
    to.number(n);
    to.put(b']');
}

// The entry number and the process.
// Kept: the two functions that begin a line by this take both too; a struct of the two would be made for this one call.
#[tactic(auto, unfolding(crate::specs::TraceParts::head_text), using(listing::proofs::WritingLaws::writes_then))]
pub fn head(to: &mut Writer<'_>, entry: u64, p: u64)
    requires { Fits to.old (head_text entry p) }
    ensures { Writes to.old (head_text entry p) to.new }
{
    to.number(entry);
    spaced(to, p);
}

#[tactic(auto, unfolding(crate::specs::TraceParts::truth_text))]
pub fn truth(to: &mut Writer<'_>, t: bool)
    requires { Fits to.old (truth_text t) }
    ensures { Writes to.old (truth_text t) to.new }
{
    if t {
        to.plain(b" true");
    } else {
        to.plain(b" false");
    }
}

// Where the step answers, the listing's line follows on the same line.
#[tactic(auto, unfolding(crate::specs::TraceParts::end_text))]
pub fn end(to: &mut Writer<'_>, answered: bool)
    requires { Fits to.old (end_text answered) }
    ensures { Writes to.old (end_text answered) to.new }
{
    if answered {
        to.plain(b" answers ");
    } else {
        to.put(b'\n');
    }
}

// The letter of a start, and the value that it brings.
#[tactic(auto, unfolding(crate::specs::TraceParts::start_text), using(listing::proofs::WritingLaws::writes_then))]
fn started(to: &mut Writer<'_>, start: Start)
    requires { Fits to.old (start_text start) }
    ensures { Writes to.old (start_text start) to.new }
{
    match start {
        Start::Ll => to.put(b'L'),
        Start::Vl => to.put(b'V'),
        Start::Sc(value) => {
            to.put(b'S');
            spaced(to, value);
        }
    }
}

// The line of a start.
#[tactic(auto, unfolding(crate::specs::TraceParts::start_line), using(listing::proofs::WritingLaws::writes_then))]
pub fn start_line(to: &mut Writer<'_>, entry: u64, p: u64, start: Start)
    requires { Fits to.old (start_line entry p start) }
    ensures { Writes to.old (start_line entry p start) to.new }
{
    head(to, entry, p);
    to.plain(b" start ");
    started(to, start);
    to.put(b'\n');
}

// The line of a step; where it answers, up to the listing's line.
#[tactic(auto, unfolding(crate::specs::TraceParts::step_line), using(listing::proofs::WritingLaws::writes_then))]
pub fn step_line<A: Shown>(to: &mut Writer<'_>, entry: u64, p: u64, access: A, answered: bool)
    requires { Fits to.old (step_line A.shown entry p access answered) }
    ensures { Writes to.old (step_line A.shown entry p access answered) to.new }
{
    head(to, entry, p);
    access.show(to);
    end(to, answered);
}
