// Numbers and expected bytes, at the front of a text.
ghost use Rattle.std.specs.Prelude.{◌≡◌, ◌≤◌};
ghost use Rattle.answers.specs.Shape.{largest};
ghost use Rattle.answers.specs.Readers.{first, is_digit, digits_after, number_in, spaced_number, expected, GivesDigit, GivesNumber, GivesSpot};

use crate::Read;

// CR 2: "up to 4,294,967,295".
pub const LARGEST: u64 = 4294967295;

// Whether a text begins with a digit.
pub fn begins_with_digit(text: &[u8]) -> bool
    ensures { result ≡ is_digit (first text.now) }
{
    matches!(text, [b'0'..=b'9', ..])
}

// The digit with which a text begins, and the text behind it.
fn digit(text: &[u8]) -> Option<(u64, &[u8])>
    ensures { GivesDigit result text.now }
{
    match text.split_first() {
        Some((c, rest)) if c.is_ascii_digit() => Some((u64::from(*c - b'0'), rest)),
        _ => None,
    }
}

// The number that begins with the digits of `value` and goes on with those of the text.
#[tactic(auto, using(crate::proofs::NumberLaws::reading_digits))]
fn digits_after(value: u64, text: &[u8]) -> Read<'_, u64>
    requires { value ≤ largest }
    ensures { GivesNumber result (digits_after value text.now) }
{
    let mut so_far = value;
    let mut rest = text;
    while let Some((digit, more)) = digit(rest) {
        let longer = so_far * 10 + digit;
        // Kept: one test for both: behind a zero alone a digit makes less than 10.
        if longer < 10 || LARGEST < longer {
            return Err(rest);
        }
        so_far = longer;
        rest = more;
    }
    Ok((so_far, rest))
}

// A number.
#[tactic(auto, using(crate::proofs::NumberLaws::reading_numbers))]
pub fn number(text: &[u8]) -> Read<'_, u64>
    ensures { GivesNumber result (number_in text.now) }
{
    match digit(text) {
        Some((digit, rest)) => digits_after(digit, rest),
        None => Err(text),
    }
}

// A space and a number.
#[tactic(auto, using(crate::proofs::NumberLaws::reading_spaced))]
pub fn spaced_number(text: &[u8]) -> Read<'_, u64>
    ensures { GivesNumber result (spaced_number text.now) }
{
    match text.split_first() {
        Some((c, rest)) if *c == b' ' => number(rest),
        _ => Err(text),
    }
}

// The text behind a word.
#[tactic(auto, using(crate::proofs::NumberLaws::passing_bytes))]
pub fn expect<'a>(text: &'a [u8], word: &[u8]) -> Result<&'a [u8], &'a [u8]>
    ensures { GivesSpot result (expected word.now text.now) }
{
    let mut rest = text;
    for k in word {
        match rest.split_first() {
            Some((c, more)) if *c == *k => rest = more,
            _ => return Err(rest),
        }
    }
    Ok(rest)
}
