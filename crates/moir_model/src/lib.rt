// The declared types of Moir's bench (Figure 6 of document 001, with the second read of CR 8), and the values of them
// that a set-up writes.

#![tactic(auto)]

ghost use Rattle.std.specs.Prelude.{◌≡◌};
ghost use Rattle.moir_model.specs.SetUp.{header_at_set_up, process_at_set_up, empty_bench};
ghost use Rattle.moir_model.specs.Replies.{number_of};

use llsc::ProcessNumber;

pub mod sizes;

// A header: Figure 6's headertype, a tag and the number of the process that wrote it.
#[derive(Clone, Copy, Default, PartialEq, Eq)]
pub struct Header {
    pub tag: u16,
    pub pid: ProcessNumber,
}

// A segment, or a private copy of one: Figure 6's segmenttype, a tag and a word.
#[derive(Clone, Copy, Default, PartialEq, Eq)]
pub struct Segment {
    pub tag: u16,
    pub val: u64,
}

// The bench record: N, W, the header and the tags of the segments. The segments' words lie in the lent words.
#[derive(Clone, Copy)]
pub struct Bench {
    pub n: usize,
    pub w: usize,
    pub header: Header,
    pub tags: [u16; 64],
}

// The private numbers of a process: Figure 6's private variables (`word` is its i) and the tag that it keeps. Its return
// area (retval) and its offer area (newval) lie in the lent words.
#[derive(Clone, Copy, Default)]
pub struct Process {
    pub line: u8,
    pub word: usize,
    pub count: usize,
    pub answered: bool,
    pub keep: u16,
    pub x: Header,
    pub oldhdr: Header,
    pub newhdr: Header,
    pub h: Header,
    pub y: Segment,
    pub z: Segment,
}

// What a command answers: refused with its number; accepted, with no answer yet; or a call's answer with its count of
// own steps. A WLL answers words, which stand in the process's return area, or names a process.
// Kept: a refusal has its row's number, since 01's table says that the number is what is returned.
#[derive(Clone, Copy)]
pub enum Reply {
    Refused(u8),
    Accepted,
    WllAnswered(usize),
    WllNamed(ProcessNumber, usize),
    ScAnswered(bool, usize),
    VlAnswered(bool, usize),
}

// What a line makes of its own process, with its reply.
// Kept: beside `model`'s `WordStep`, as each bench has its own process and reply.
#[derive(Clone, Copy)]
pub struct LineStep {
    pub process: Process,
    pub reply: Reply,
}

// What an accepted command leaves of the bench and of its process, with its reply.
// Kept: beside `model`'s own, as one for both would have a type parameter for each field.
#[derive(Clone, Copy)]
pub struct Moved {
    pub bench: Bench,
    pub process: Process,
    pub reply: Reply,
}

// The header at the set-up.
pub fn header_at_set_up() -> Header
    ensures { result ≡ header_at_set_up }
{
    Header::default()
}

// A bench record before any set-up, for a program to lend.
pub fn empty_bench() -> Bench
    ensures { result ≡ empty_bench }
{
    Bench {
        n: 0,
        w: 0,
        header: header_at_set_up(),
        tags: [0; 64],
    }
}

// A process at the set-up: every number is 0.
pub fn process_at_set_up() -> Process
    ensures { result ≡ process_at_set_up }
{
    Process::default()
}

// The number of a refusal, 0 for none.
// Kept: 01's table says that the number is what is returned, and users compare it; `model`'s Reply is another type.
pub fn number_of(reply: Reply) -> u8
    ensures { result ≡ number_of reply }
{
    match reply {
        Reply::Refused(number) => number,
        _ => 0,
    }
}
