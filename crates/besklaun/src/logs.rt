// The judge (02, CR 1) for C.
ghost use Rattle.std.specs.Prelude.{◌≡◌};
ghost use Rattle.verdicts.specs.Verdicts.{judged};
ghost use Rattle.verdicts.specs.Reasons.{judged_with_reason};
ghost use Rattle.besklaun.specs.Judgements.{judgement_of, plain_no, fault_of, refused_of, reasoned_of};

use verdicts::{Fault, Place, Shown, Verdict};

// A verdict in C's terms: the number of the refusal, 0 for none, and whether the log earns a yes.
// Kept: no enum crosses to C.
#[repr(C)]
#[derive(Clone, Copy)]
pub struct Judgement {
    pub number: u8,
    pub yes: bool,
}

impl From<Verdict> for Judgement {
    ghost from_gives = { λ verdict told. told ≡ judgement_of verdict };

    fn from(verdict: Verdict) -> Judgement {
        match verdict {
            Verdict::Refused(refusal) => Judgement {
                number: refusal.number(),
                yes: false,
            },
            Verdict::Yes => Judgement {
                number: 0,
                yes: true,
            },
            Verdict::No => Judgement {
                number: 0,
                yes: false,
            },
        }
    }
}

// Whether the moments of a log are a linearization of its calls: N, W, the value with which the object begins, and the
// log, 6 + W numbers for each call.
// Kept: N, W, the value and the log one by one, as the C library's header declares them; no struct holds a slice in C.
// Wrong programs that this rules out: one that says yes to a log that is refused; one that says 1 for no, which is the
// number of a refusal.
pub fn besklaun_judge(n: usize, w: usize, value: &[u64], log: &[u64]) -> Judgement
    ensures { result ≡ judgement_of (judged n w value.now log.now) }
{
    Judgement::from(judging::judge(n, w, value, log))
}

// The same with the reason: the first condition that fails, 0 for none, the calls at fault by their index, and what the
// object would have answered; of a refusal the call that it is about. 0 and false where they mean nothing.
// Kept: no enum crosses to C.
#[repr(C)]
#[derive(Clone, Copy, Default)]
pub struct Reasoned {
    pub number: u8,
    pub yes: bool,
    pub condition: u8,
    pub given: bool,
    pub truth: bool,
    pub call: usize,
    pub other: usize,
}

// A no without its reason.
fn plain_no() -> Reasoned
    ensures { result ≡ plain_no }
{
    Reasoned::default()
}

impl From<Fault> for Reasoned {
    ghost from_gives = { λ fault told. told ≡ fault_of fault };

    fn from(fault: Fault) -> Reasoned {
        let no = plain_no();
        match fault {
            Fault::Unknown(call) => Reasoned {
                condition: 1,
                call,
                ..no
            },
            Fault::Overlap(call, other) => Reasoned {
                condition: 2,
                call,
                other,
                ..no
            },
            Fault::Moment(call, other) => Reasoned {
                condition: 3,
                call,
                other,
                ..no
            },
            Fault::Outside(call) => Reasoned {
                condition: 4,
                call,
                ..no
            },
            Fault::Answer(call, Shown::Value) => Reasoned {
                condition: 5,
                call,
                given: true,
                ..no
            },
            Fault::Answer(call, Shown::WordsOf(other)) => Reasoned {
                condition: 5,
                call,
                other,
                ..no
            },
            Fault::Answer(call, Shown::Truth(truth)) => Reasoned {
                condition: 5,
                call,
                truth,
                ..no
            },
            Fault::Unled(call) => Reasoned {
                condition: 6,
                call,
                ..no
            },
        }
    }
}

fn refused_of(number: u8, place: Option<Place>) -> Reasoned
    ensures { result ≡ refused_of number place }
{
    let refused = Reasoned {
        number,
        ..plain_no()
    };
    match place {
        None => refused,
        Some(Place::Value) => Reasoned {
            given: true,
            ..refused
        },
        Some(Place::Call(call)) => Reasoned { call, ..refused },
    }
}

impl From<verdicts::Judgement> for Reasoned {
    ghost from_gives = { λ said told. told ≡ reasoned_of said };

    fn from(said: verdicts::Judgement) -> Reasoned {
        match said {
            verdicts::Judgement::Refused(refusal) => {
                refused_of(refusal.refusal().number(), refusal.place())
            }
            verdicts::Judgement::Yes => Reasoned {
                yes: true,
                ..plain_no()
            },
            verdicts::Judgement::No(fault) => Reasoned::from(fault),
        }
    }
}

// Wrong programs that this rules out: one that tells no reason where it says no; one that exchanges the two calls.
pub fn besklaun_judge_with_reason(n: usize, w: usize, value: &[u64], log: &[u64]) -> Reasoned
    ensures { result ≡ reasoned_of (judged_with_reason n w value.now log.now) }
{
    Reasoned::from(reasons::judge_with_reason(n, w, value, log))
}
