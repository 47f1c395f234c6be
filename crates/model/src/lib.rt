// The declared types of the bench, and the values of them that a set-up writes.

#![tactic(auto)]

ghost use Rattle.std.specs.Prelude.{◌≡◌};
ghost use Rattle.model.specs.SetUp.{x_at_set_up, bank_at_set_up, help_at_set_up, process_at_set_up, empty_bench};
ghost use Rattle.model.specs.Replies.{number_of};
ghost use Rattle.model.specs.declared.Reply.TheVariants.{Accepted};

pub mod points;
pub mod sizes;

use std::alloc::AllocError;

// A buffer's number, below 3N.
#[derive(Clone, Copy, Default, PartialEq, Eq)]
pub struct BufferNumber(pub u8);

// A sequence number, below 2N.
#[derive(Clone, Copy, Default)]
pub struct SequenceNumber(pub u8);

// What X holds: Figure 2's xtype.
#[derive(Clone, Copy, Default)]
pub struct XContent {
    pub buf: BufferNumber,
    pub seq: SequenceNumber,
}

// What a place of Help holds: Figure 2's helptype.
#[derive(Clone, Copy, Default)]
pub struct HelpContent {
    pub flag: u8,
    pub buf: BufferNumber,
}

// A shared place, with its links: bit p of the number is the link of process p.
#[derive(Copy, Default)]
pub struct Place<T> {
    pub content: T,
    pub links: u16,
}

// Kept: by hand, as a derived clone asks its fields one by one, with a way out at each.
impl<T: Copy> Clone for Place<T> {
    ghost is_clone = { λ x y. y ≡ x };

    fn clone(&self) -> Result<Place<T>, AllocError> {
        Ok(*self)
    }
}

// X, a place of Bank and a place of Help.
pub type XPlace = Place<XContent>;

pub type BankPlace = Place<BufferNumber>;

pub type HelpPlace = Place<HelpContent>;

// The bench record: N, W, X, Bank (2N places), Help (N places) and their links.
#[derive(Clone, Copy)]
pub struct Bench {
    pub n: usize,
    pub w: usize,
    pub x: XPlace,
    pub bank: [BankPlace; 32],
    pub help: [HelpPlace; 16],
}

// The private numbers of a process. Its return area and its offer area lie in the lent words.
#[derive(Clone, Copy, Default)]
pub struct Process {
    pub mybuf: BufferNumber,
    pub x: XContent,
    pub line: u8,
    pub word: usize,
    pub count: usize,
    pub answered: bool,
    pub b: BufferNumber,
    pub c: BufferNumber,
    pub d: BufferNumber,
    pub e: BufferNumber,
}

// What a command answers: refused with its number; accepted, with no answer yet; or a call's answer with its count of
// own steps.
// The words of an LL's answer stand in the process's return area.
// Kept: a refusal has its row's number, since 01's table says that the number is what is returned.
#[derive(Clone, Copy)]
pub enum Reply {
    Refused(u8),
    Accepted,
    LlAnswered(usize),
    ScAnswered(bool, usize),
    VlAnswered(bool, usize),
}

// What a line makes of the place that it touches and of its own process, with its reply.
#[derive(Copy)]
pub struct LineStep<P> {
    pub place: P,
    pub process: Process,
    pub reply: Reply,
}

// Kept: by hand, as that of a place.
impl<P: Copy> Clone for LineStep<P> {
    ghost is_clone = { λ x y. y ≡ x };

    fn clone(&self) -> Result<LineStep<P>, AllocError> {
        Ok(*self)
    }
}

impl<P> LineStep<P> {
    // What a line that does not answer makes.
    pub fn accepted(place: P, process: Process) -> LineStep<P>
        ensures { result ≡ record { place = place; process = process; reply = Accepted } }
    {
        LineStep {
            place,
            process,
            reply: Reply::Accepted,
        }
    }
}

// What a line that moves a word makes of its own process, with its reply.
// Kept: no `LineStep` of `()`, as there is no place to name.
#[derive(Clone, Copy)]
pub struct WordStep {
    pub process: Process,
    pub reply: Reply,
}

// What an accepted command leaves of the bench and of its process, with its reply.
// Kept: no `LineStep<Bench>`, as a bench is no place; one with Moir's would have a type parameter for each field.
#[derive(Clone, Copy)]
pub struct Moved {
    pub bench: Bench,
    pub process: Process,
    pub reply: Reply,
}

// X at the set-up.
pub fn x_at_set_up() -> XPlace
    ensures { result ≡ x_at_set_up }
{
    Place::default()
}

// Bank[k] at the set-up.
pub fn bank_at_set_up(k: u8) -> BankPlace
    ensures { result ≡ bank_at_set_up k }
{
    Place {
        content: BufferNumber(k),
        links: 0,
    }
}

// Help[p] at the set-up.
pub fn help_at_set_up() -> HelpPlace
    ensures { result ≡ help_at_set_up }
{
    Place::default()
}

// A bench record before any set-up, for a program to lend.
pub fn empty_bench() -> Bench
    ensures { result ≡ empty_bench }
{
    Bench {
        n: 0,
        w: 0,
        x: x_at_set_up(),
        bank: [bank_at_set_up(0); 32],
        help: [help_at_set_up(); 16],
    }
}

// A process at the set-up, with the buffer that it owns. Its other numbers are 0.
pub fn process_at_set_up(mybuf: u8) -> Process
    ensures { result ≡ process_at_set_up mybuf }
{
    Process {
        mybuf: BufferNumber(mybuf),
        ..Process::default()
    }
}

// The number of a refusal, 0 for none.
// Kept: 01's table says that the number is what is returned, and users compare it; Moir's Reply is a type of its own.
pub fn number_of(reply: Reply) -> u8
    ensures { result ≡ number_of reply }
{
    match reply {
        Reply::Refused(number) => number,
        _ => 0,
    }
}
