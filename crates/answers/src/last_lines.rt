// The last line: `end E` or `refused C E`.
ghost use Rattle.std.specs.Prelude.{◌≡◌};
ghost use Rattle.answers.specs.Readers.{at_end, end_in, refused_in, last_in, GivesEnd};

use crate::numbers::{expect, number, spaced_number};

// The line feed behind the last number, and nothing more.
fn finish(text: &[u8]) -> Result<(), &[u8]>
    ensures { GivesEnd result (at_end text.now) }
{
    let rest = expect(text, b"\n")?;
    if rest.is_empty() { Ok(()) } else { Err(rest) }
}

// `end E`.
#[tactic(auto, unfolding(crate::specs::Readers::end_in, crate::specs::Readers::finished))]
fn end_line(text: &[u8]) -> Result<(), &[u8]>
    ensures { GivesEnd result (end_in text.now) }
{
    let rest = expect(text, b"end ")?;
    let (_, rest) = number(rest)?;
    finish(rest)
}

// `refused C E`.
#[tactic(auto, unfolding(crate::specs::Readers::refused_in, crate::specs::Readers::finished))]
fn refused_line(text: &[u8]) -> Result<(), &[u8]>
    ensures { GivesEnd result (refused_in text.now) }
{
    let rest = expect(text, b"refused ")?;
    let (_, rest) = number(rest)?;
    let (_, rest) = spaced_number(rest)?;
    finish(rest)
}

// The last line, and that nothing follows it.
#[tactic(auto, unfolding(crate::specs::Readers::last_in))]
pub fn last_line(text: &[u8]) -> Result<(), &[u8]>
    ensures { GivesEnd result (last_in text.now) }
{
    match text {
        [b'e', ..] => end_line(text),
        _ => refused_line(text),
    }
}
