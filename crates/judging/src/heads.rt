// A call of the log without its words, and what the judge looks through a log for.
ghost use Rattle.std.specs.Prelude.{◌≡◌, ◌+◌, ◌≤◌, length, drop};
ghost use Rattle.judging.specs.Heads.{head_of, known, inside, apart, leads};

// Kept: a log's kinds are numbers as the stations write them, and some are none of these.
pub const LL: u64 = 1;

pub const SC: u64 = 2;

pub const VL: u64 = 3;

#[derive(Clone, Copy, PartialEq, Eq)]
pub struct Head {
    pub process: u64,
    pub kind: u64,
    pub start: u64,
    pub answer: u64,
    pub truth: u64,
    pub moment: u64,
}

// The call at the front of the numbers.
pub fn head_of(numbers: &[u64]) -> Head
    requires { 6 ≤ length numbers.now }
    ensures { result ≡ head_of numbers.now }
{
    Head {
        process: numbers[0],
        kind: numbers[1],
        start: numbers[2],
        answer: numbers[3],
        truth: numbers[4],
        moment: numbers[5],
    }
}

impl Head {
    // The kind is one.
    pub fn known(self) -> bool
        ensures { result ≡ known self }
    {
        matches!(self.kind, LL..=VL)
    }

    // The moment lies after the start and not after the answer.
    pub fn inside(self) -> bool
        ensures { result ≡ inside self }
    {
        self.start < self.moment && self.moment <= self.answer
    }

    // Another call is of another process, or one of the two is answered before the other starts.
    pub fn apart(self, other: Head) -> bool
        ensures { result ≡ apart self other }
    {
        self.process != other.process || self.answer < other.start || other.answer < self.start
    }

    // Another call is an LL of this one's process, before it in moment order.
    pub fn led_by(self, other: Head) -> bool
        ensures { result ≡ leads self other }
    {
        other.process == self.process && other.kind == LL && other.moment < self.moment
    }
}
