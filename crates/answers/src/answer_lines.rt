// Answer lines.
ghost use Rattle.std.specs.Prelude.{◌≤◌};
ghost use Rattle.answers.specs.Shape.{largest};
ghost use Rattle.answers.specs.Readers.{words_in, fed, ll_tail, truth_tail, by_letter, answer_in, GivesNumber, GivesSpot, GivesLine};

use crate::numbers::{expect, number, spaced_number};
use crate::{Gain, NO_SUM, Read, Sum};

// So many numbers, each after a space.
#[tactic(auto, using(crate::proofs::NumberLaws::passing_words))]
fn words(text: &[u8], w: u64) -> Result<&[u8], &[u8]>
    ensures { GivesSpot result (words_in w text.now) }
{
    let mut rest = text;
    for _i in 0..w {
        let word = spaced_number(rest)?;
        rest = word.1;
    }
    Ok(rest)
}

// The line feed that ends a line, behind what `value` was read from.
// Kept: `value ≤ largest` is asked here and in `digits_after` alone: the readers' contracts say it of what they give.
fn close(text: &[u8], value: u64) -> Read<'_, u64>
    requires { value ≤ largest }
    ensures { GivesNumber result (fed value text.now) }
{
    let rest = expect(text, b"\n")?;
    Ok((value, rest))
}

// The rest of an LL's line behind its letter; it is worth its count.
#[tactic(auto, unfolding(crate::specs::Readers::ll_tail))]
fn ll_tail(text: &[u8], w: u64) -> Read<'_, u64>
    ensures { GivesNumber result (ll_tail w text.now) }
{
    let (count, rest) = spaced_number(text)?;
    let rest = words(rest, w)?;
    close(rest, count)
}

// The rest of an SC's or a VL's line behind its letter; it is worth its 1 or 0.
#[tactic(auto, unfolding(crate::specs::Readers::truth_tail))]
fn truth_tail(text: &[u8]) -> Read<'_, u64>
    ensures { GivesNumber result (truth_tail text.now) }
{
    let (_, rest) = spaced_number(text)?;
    let (truth, rest) = spaced_number(rest)?;
    if 1 < truth {
        return Err(rest);
    }
    close(rest, truth)
}

// The line of process p from its letter on.
#[tactic(auto, unfolding(crate::specs::Readers::by_letter))]
fn by_letter(text: &[u8], w: u64, p: u64) -> Read<'_, Gain>
    ensures { GivesLine result (by_letter w p text.now) }
{
    let (sum, rest) = match text {
        [b'L', rest @ ..] => {
            let (count, rest) = ll_tail(rest, w)?;
            let sum = Sum {
                steps: count,
                lls: 1,
                ..NO_SUM
            };
            (sum, rest)
        }
        [b'S', rest @ ..] => {
            let (success, rest) = truth_tail(rest)?;
            let sum = Sum {
                successes: success,
                scs: 1,
                ..NO_SUM
            };
            (sum, rest)
        }
        [b'V', rest @ ..] => {
            let (_, rest) = truth_tail(rest)?;
            (NO_SUM, rest)
        }
        _ => return Err(text),
    };
    Ok((Gain { process: p, sum }, rest))
}

// An answer line of n processes and w words.
// Kept: n and w apart, and no struct of both: the process alone is held against n, and what reads on needs w alone.
#[tactic(auto, unfolding(crate::specs::Readers::answer_in))]
pub(crate) fn answer_line(text: &[u8], n: u64, w: u64) -> Read<'_, Gain>
    requires { n ≤ 16 }
    ensures { GivesLine result (answer_in n w text.now) }
{
    let (process, rest) = number(text)?;
    if n <= process {
        return Err(rest);
    }
    let rest = expect(rest, b" ")?;
    by_letter(rest, w, process)
}
