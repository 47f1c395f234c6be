// Numbers among the arguments.
ghost use Rattle.std.specs.Prelude.{◌≡◌};
ghost use Rattle.fractions.specs.Arguments.{number_told};

use std::env::{Env, FillError};

// The largest number that is taken.
const LARGEST: u64 = 4294967295;

// How many arguments the program was started with, its own name among them.
// Kept: no Option: where each argument below `usize::MAX` is there, there are so many.
pub(crate) fn count(rt: &impl Env) -> usize {
    let mut first = [0u8; 1];
    for i in 0..usize::MAX {
        if let Err(FillError::NotPresent) = rt.arg(i, &mut first) {
            return i;
        }
    }
    usize::MAX
}

// Argument i as a number: what its digits are worth, where the operating system has it.
pub(crate) fn number_argument(rt: &impl Env, i: usize) -> Option<u64> {
    let mut text = [0u8; 20];
    match rt.arg(i, &mut text) {
        Ok(got) if 0 < got => digits(&text[..got]),
        _ => None,
    }
}

// The number that the digits make.
// Kept: the digits read one by one, since `parse` would take a sign too.
#[tactic(auto, using(crate::proofs::DigitLaws::reading_digits))]
fn digits(text: &[u8]) -> Option<u64>
    ensures { result ≡ number_told text.now }
{
    let mut value: u64 = 0;
    for b in text {
        if !b.is_ascii_digit() {
            return None;
        }
        value = value * 10 + u64::from(*b - b'0');
        if LARGEST < value {
            return None;
        }
    }
    Some(value)
}
