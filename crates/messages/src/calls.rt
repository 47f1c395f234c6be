// The open call of a process: its kind, the line that comes next, the word place where that line moves words, and the
// own steps so far. The same words for every method.
ghost use Rattle.std.specs.Prelude.{◌≡◌, Some};
ghost use Rattle.messages.specs.OpenLines.{figure_text, half_text, word_text, steps_text, told_text};

pub use llsc::CallKind as Kind;
use std::fmt;

// How a line moves words: a whole word to a step, or a half.
#[derive(Clone, Copy)]
pub enum Moves {
    Whole,
    Halves,
}

// Kept: `place` beside `moves`, not in it: the record has a place at each line; the words of a message alone choose.
#[derive(Clone, Copy)]
pub struct Call {
    pub kind: Kind,
    pub line: u8,
    // none where that line moves no word
    pub moves: Option<Moves>,
    // the word place, which counts what a step moves
    pub place: usize,
    pub count: usize,
}

// The figure whose lines are told.
#[derive(Clone, Copy)]
pub enum Figure {
    Two,
    Six,
}

// As a message names it.
fn figure_name(figure: Figure) -> &'static str
    ensures { result.now ≡ figure_text figure }
{
    match figure {
        Figure::Two => "Figure 2",
        Figure::Six => "Figure 6",
    }
}

// The figure, and W.
#[derive(Clone, Copy)]
pub struct Method {
    pub figure: Figure,
    pub w: u64,
}

// A call as a message tells it.
#[derive(Clone, Copy)]
pub struct Told {
    pub call: Call,
    pub method: Method,
}

impl fmt::Display for Told {
    ghost output = { λ t. Some (told_text t) };

    fn fmt<W: fmt::Write>(&self, f: &mut fmt::Formatter<W>) -> fmt::Result {
        let Told { call, method } = *self;
        let word = Word {
            moves: call.moves,
            place: call.place,
            w: method.w,
        };
        let steps = steps(call.count);
        write!(
            f,
            "{}, line {} of {}{word} next, {} own {steps} so far",
            call.kind,
            call.line,
            figure_name(method.figure),
            call.count
        )
    }
}

fn steps(count: usize) -> &'static str
    ensures { result.now ≡ steps_text count }
{
    if count == 1 { "step" } else { "steps" }
}

fn half_name(place: usize) -> &'static str
    ensures { result.now ≡ half_text place }
{
    if place % 2 == 0 { "low" } else { "high" }
}

// The word of a line that moves words, from 0 on as in a trace.
#[derive(Clone, Copy)]
struct Word {
    moves: Option<Moves>,
    place: usize,
    w: u64,
}

impl fmt::Display for Word {
    ghost output = { λ x. Some (word_text x) };

    fn fmt<W: fmt::Write>(&self, f: &mut fmt::Formatter<W>) -> fmt::Result {
        let Word { moves, place, w } = *self;
        match moves {
            None => Ok(()),
            Some(Moves::Whole) => write!(f, ", word {place} of {w}"),
            Some(Moves::Halves) => {
                let half = half_name(place);
                write!(f, ", word {} of {w}, {half} half", place / 2)
            }
        }
    }
}
