// A log and its calls, by their index, as a message shows them.
ghost use Rattle.std.specs.Prelude.{◌≡◌, ◌≤◌, ◌+◌, ◌-◌, length, get_or, Some};
ghost use Rattle.judge.specs.LogCalls.{width_told, first_of, part_of, head_in, line_in, words_in};
ghost use Rattle.judge.specs.CallText.{kind_text, name_text, span_text};

use judging::heads;
use judging::heads::Head;
use logtext::number_places;
use saying::Place;
use std::fmt;

// The numbers of a log's text, and the text.
#[derive(Clone, Copy)]
pub(crate) struct Log<'a> {
    pub(crate) numbers: &'a [u64],
    pub(crate) text: &'a [u8],
}

// A call: the line in which it begins, its six numbers, 0 where there is none, and its words.
#[derive(Clone, Copy)]
pub(crate) struct Call<'a> {
    pub(crate) line: usize,
    pub(crate) head: Head,
    pub(crate) words: Words<'a>,
}

impl<'a> Log<'a> {
    pub(crate) fn call(self, index: usize) -> Call<'a>
        ensures line { result.line ≡ line_in self.entry.numbers.now self.entry.text.now index }
        ensures head { result.head ≡ head_in self.entry.numbers.now index }
        ensures words { result.words.0.now
            ≡ words_in self.entry.numbers.now (first_of self.entry.numbers.now index + 6) }
    {
        let numbers = self.numbers;
        let head = Head {
            process: part(numbers, index, 0),
            kind: part(numbers, index, 1),
            start: part(numbers, index, 2),
            answer: part(numbers, index, 3),
            truth: part(numbers, index, 4),
            moment: part(numbers, index, 5),
        };
        Call {
            line: self.line(index),
            head,
            words: words_from(numbers, first_of(numbers, index) + 6),
        }
    }

    // The line in which a call begins.
    pub(crate) fn line(self, index: usize) -> usize
        ensures { result ≡ line_in self.entry.numbers.now self.entry.text.now index }
    {
        let place = number_places::number_place(self.text, first_of(self.numbers, index));
        Place::of(self.text, place).line
    }

    // How many numbers stand from a call's first on.
    pub(crate) fn left(self, call: usize) -> u64
        ensures { result ≡ length self.entry.numbers.now - first_of self.entry.numbers.now call }
    {
        let first = first_of(self.numbers, call);
        self.numbers.len().saturating_sub(first) as u64
    }

    // The initial value.
    pub(crate) fn value(self) -> Words<'a>
        ensures { result.0.now ≡ words_in self.entry.numbers.now 2 }
    {
        words_from(self.numbers, 2)
    }
}

// A call by its process and kind.
impl fmt::Display for Call<'_> {
    ghost output = { λ c. Some (name_text c.head) };

    fn fmt<W: fmt::Write>(&self, f: &mut fmt::Formatter<W>) -> fmt::Result {
        let kind = kind_word(self.head.kind);
        write!(f, "process {}'s {kind}", self.head.process)
    }
}

// Kept: a log's kind is any number, so that each is told; `board_commands::order_of` is alike by its four arms alone.
fn kind_word(kind: u64) -> &'static str
    ensures { result.now ≡ kind_text kind }
{
    match kind {
        heads::LL => "LL",
        heads::SC => "SC",
        heads::VL => "VL",
        _ => "call",
    }
}

// A call with its two places.
#[derive(Clone, Copy)]
pub(crate) struct Span<'a>(pub(crate) Call<'a>);

impl fmt::Display for Span<'_> {
    ghost output = { λ s. Some (span_text s.0.head) };

    fn fmt<W: fmt::Write>(&self, f: &mut fmt::Formatter<W>) -> fmt::Result {
        let call = self.0;
        let Head { start, answer, .. } = call.head;
        write!(f, "{call} from {start} to {answer}")
    }
}

// The words of a value or of a call, with a space between two.
#[derive(Clone, Copy)]
pub(crate) struct Words<'a>(&'a [u64]);

impl fmt::Display for Words<'_> {
    fn fmt<W: fmt::Write>(&self, f: &mut fmt::Formatter<W>) -> fmt::Result {
        for (k, n) in self.0.iter().enumerate() {
            let space = if k == 0 { "" } else { " " };
            write!(f, "{space}{n}")?;
        }
        Ok(())
    }
}

// The W numbers from an index on, as far as there are so many.
// Kept: a place beside the numbers: `first_of` tells where a call's words begin, and may be past the end.
fn words_from<'a>(numbers: &'a [u64], from: usize) -> Words<'a>
    ensures { result.0.now ≡ words_in numbers.now from }
{
    let rest = &numbers[from.min(numbers.len())..];
    Words(&rest[..width(numbers).min(rest.len())])
}

// A number of the text, 0 where there is none.
// Kept: 0 for a number that the text lacks, as `part_of` says: a fault's calls are in the text, so none is shown.
pub(crate) fn at(numbers: &[u64], i: usize) -> u64
    ensures { result ≡ get_or numbers.now i 0 }
{
    numbers.get(i).copied().unwrap_or(0)
}

// W, where it is at most 64.
// Kept: 0 is no W (row 2), so that it says "none up to 64", as `width_told` does.
pub(crate) fn width(numbers: &[u64]) -> usize
    ensures upper_bound { result ≤ 64 }
    ensures value { result ≡ width_told numbers.now }
{
    let w = at(numbers, 1);
    if w > 64 {
        return 0;
    }
    w as usize
}

// The index of a call's first number.
// Kept: 0, where no call begins, keeps the product in range, as `first_of` says: a text has no call above 65,536.
#[tactic(auto, using(crate::proofs::CallLaws::first_number))]
pub(crate) fn first_of(numbers: &[u64], call: usize) -> usize
    ensures upper_bound { result ≤ 5000000 }
    ensures value { result ≡ first_of numbers.now call }
{
    let w = width(numbers);
    if call > 65536 {
        return 0;
    }
    2 + w + call * (6 + w)
}

// One of a call's six numbers.
fn part(numbers: &[u64], call: usize, k: usize) -> u64
    requires { k ≤ 5 }
    ensures { result ≡ part_of numbers.now call k }
{
    at(numbers, first_of(numbers, call) + k)
}
