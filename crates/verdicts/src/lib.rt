// What the judge says of a log: refused for a cause, yes, or no; and why it says so.

#![tactic(auto)]

ghost use Rattle.std.specs.Prelude.{◌≡◌};
ghost use Rattle.verdicts.specs.Reasons.{cause_of, place_of};

use llsc::refusals::Refusal;

// Kept: 02 names three verdicts; in a `Result<bool, Refusal>` yes and no would be `Ok(true)` and `Ok(false)`.
#[derive(Clone, Copy, PartialEq, Eq)]
pub enum Verdict {
    Refused(Refusal),
    Yes,
    No,
}

// What Figure 1's object answers a call: an LL with the value, or with the words that the SC of this index offered; an SC
// or VL with a truth.
#[derive(Clone, Copy, PartialEq, Eq)]
pub enum Shown {
    Value,
    WordsOf(usize),
    Truth(bool),
}

// Why it says no: the first of CR 1's six conditions that fails, in their order, with the call at fault and another that it
// is at fault with, by their index in the log, or with what the object would have answered.
#[derive(Clone, Copy, PartialEq, Eq)]
pub enum Fault {
    Unknown(usize),
    Overlap(usize, usize),
    Moment(usize, usize),
    Outside(usize),
    Answer(usize, Shown),
    Unled(usize),
}

// What a refusal is about: the value, or the call of this index.
#[derive(Clone, Copy, PartialEq, Eq)]
pub enum Place {
    Value,
    Call(usize),
}

// A row of the refusal table that a log can break, with the call of this index, or the value or call, that it is about.
#[derive(Clone, Copy, PartialEq, Eq)]
pub enum LogRefusal {
    NOutOfRange,
    WOutOfRange,
    NoSuchProcess(usize),
    ValueNotWWords(Place),
    TooManyCalls,
    AnswerNotAfterStart(usize),
}

impl LogRefusal {
    // The row.
    pub fn refusal(self) -> Refusal
        ensures { result ≡ cause_of self }
    {
        match self {
            LogRefusal::NOutOfRange => Refusal::NOutOfRange,
            LogRefusal::WOutOfRange => Refusal::WOutOfRange,
            LogRefusal::NoSuchProcess(_) => Refusal::NoSuchProcess,
            LogRefusal::ValueNotWWords(_) => Refusal::ValueNotWWords,
            LogRefusal::TooManyCalls => Refusal::TooManyCalls,
            LogRefusal::AnswerNotAfterStart(_) => Refusal::AnswerNotAfterStart,
        }
    }

    // What it is about, where that is one place of the log.
    pub fn place(self) -> Option<Place>
        ensures { result ≡ place_of self }
    {
        match self {
            LogRefusal::NoSuchProcess(call) | LogRefusal::AnswerNotAfterStart(call) => {
                Some(Place::Call(call))
            }
            LogRefusal::ValueNotWWords(place) => Some(place),
            LogRefusal::NOutOfRange | LogRefusal::WOutOfRange | LogRefusal::TooManyCalls => None,
        }
    }
}

// The verdict, with why it is no, or with what a refusal is about.
// Kept: three verdicts, as `Verdict`; each with what is told of it.
#[derive(Clone, Copy, PartialEq, Eq)]
pub enum Judgement {
    Refused(LogRefusal),
    Yes,
    No(Fault),
}
