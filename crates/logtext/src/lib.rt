// The text of a log: its numbers, read into lent memory, where they stand, and what the judge says of them.

#![tactic(auto)]

pub mod number_places;

ghost use Rattle.std.specs.Prelude.{◌≡◌, ◌≤◌, ◌<◌, length};
ghost use Rattle.logtext.specs.Numbers.{is_gap, judged_numbers};
ghost use Rattle.logtext.specs.Readings.{text_into, stopped_at, with_digit, digit_read, closed_into, byte_into};

use verdicts::Judgement;

// Why a reading stopped: a byte that is neither digit nor gap, a number of 2^64 or more, or more numbers than there is
// room for.
#[derive(Clone, Copy, PartialEq, Eq)]
pub enum Fault {
    StrayByte,
    TooLarge,
    TooMany,
}

// Why the reading stopped, if it did; the number that is being read, if there is one; how many were read.
// Kept: `count` is told whether it stopped or not: a `Result` would hold it on both sides.
#[derive(Clone, Copy)]
pub struct Reading {
    pub fault: Option<Fault>,
    pub number: Option<u64>,
    pub count: usize,
}

fn stopped(r: Reading, fault: Fault) -> Reading
    ensures { result ≡ stopped_at fault r }
{
    Reading {
        fault: Some(fault),
        ..r
    }
}

// One digit more.
fn digit(r: Reading, d: u64) -> Reading
    requires { d < 10 }
    ensures { result ≡ digit_read d r }
{
    match with_digit(r.number.unwrap_or(0), d) {
        Some(number) => Reading {
            fault: None,
            number: Some(number),
            count: r.count,
        },
        None => stopped(r, Fault::TooLarge),
    }
}

// The number with one digit more, where it is below 2^64.
fn with_digit(number: u64, d: u64) -> Option<u64>
    ensures { result ≡ with_digit number d }
{
    number.checked_mul(10)?.checked_add(d)
}

// The number being read, if there is one, ends here.
// Kept: reading and list apart, as in `byte`: tried as one struct, `judge` takes 15.7 million instructions, not 15.3.
fn close(r: Reading, numbers: &mut [u64]) -> Reading
    requires { r.count ≤ length numbers.old }
    ensures { (result, numbers.new) ≡ closed_into r numbers.old }
{
    let number = match r.number {
        Some(number) => number,
        None => return r,
    };
    if r.count == numbers.len() {
        return stopped(r, Fault::TooMany);
    }
    numbers[r.count] = number;
    Reading {
        fault: None,
        number: None,
        count: r.count + 1,
    }
}

pub fn is_gap(b: u8) -> bool
    ensures { result ≡ is_gap b }
{
    matches!(b, b' ' | b'\n' | b'\t' | b'\r')
}

// One byte more.
fn byte(r: Reading, b: u8, numbers: &mut [u64]) -> Reading
    requires { r.count ≤ length numbers.old }
    ensures { (result, numbers.new) ≡ byte_into b r numbers.old }
{
    match b {
        b'0'..=b'9' => digit(r, u64::from(b - b'0')),
        _ if is_gap(b) => close(r, numbers),
        _ => stopped(r, Fault::StrayByte),
    }
}

// The numbers of a text, as many as there is room for; what lies behind them in the lent list stays.
#[tactic(auto, using(crate::proofs::ReadingLaws::read_begin, crate::proofs::ReadingLaws::read_go))]
pub fn read(text: &[u8], numbers: &mut [u64]) -> Reading
    ensures { (result, numbers.new) ≡ text_into text.now numbers.old }
{
    let mut r = Reading {
        fault: None,
        number: None,
        count: 0,
    };
    for b in text {
        r = byte(r, *b, numbers);
        if r.fault.is_some() {
            return r;
        }
    }
    close(r, numbers)
}

// What the judge says of the numbers of a text, and why.
#[tactic(auto, using(crate::proofs::ReadingLaws::judged_whole, crate::proofs::ReadingLaws::judged_short))]
pub fn judge_numbers(numbers: &[u64]) -> Judgement
    requires { 2 ≤ length numbers.now }
    ensures { result ≡ judged_numbers numbers.now }
{
    let n = numbers[0] as usize;
    let w = numbers[1] as usize;
    let rest = &numbers[2..];
    if rest.len() < w {
        return reasons::judge_with_reason(n, w, rest, &rest[rest.len()..]);
    }
    reasons::judge_with_reason(n, w, &rest[..w], &rest[w..])
}
