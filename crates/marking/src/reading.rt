// A line of a trace, read for what it tells of its command. The lines are those that a trace writes.
ghost use Rattle.std.specs.Prelude.{◌≡◌, drop};
ghost use Rattle.answers.specs.Readers.{first, number_in, spaced_number, GivesNumber};
ghost use Rattle.marking.specs.Reading.{half_in, item_in, looks_in, line_in, GivesTooLarge, GivesItem};

use crate::{Line, NamedItem, Touch};
use answers::{Read, numbers};

// A number and the text behind it. Where none stands, as in no line of a trace, it is one more than the largest.
// Kept: `line_in` gives such a text that number, too; an Option would stand in `Line` and in each item.
fn or_too_large(read: Read<'_, u64>) -> (u64, &[u8])
    ensures { GivesTooLarge read.entry result }
{
    match read {
        Ok(read) => read,
        Err(rest) => (numbers::LARGEST + 1, rest),
    }
}

// The text from the k-th byte on.
fn skip(text: &[u8], k: usize) -> &[u8]
    ensures { result.now ≡ drop k text.now }
{
    &text[k.min(text.len())..]
}

// A half word: buffer, word, and which half.
#[tactic(auto, unfolding(crate::specs::Reading::half_in))]
fn half(text: &[u8]) -> (NamedItem, &[u8])
    ensures { GivesItem result (half_in text.now) }
{
    let (buffer, rest) = or_too_large(numbers::number(text));
    let (word, rest) = or_too_large(numbers::number(skip(rest, 2)));
    let rest = skip(rest, 2);
    let high = matches!(rest, [b'h', ..]);
    let rest = skip(rest, if high { 4 } else { 3 });
    (NamedItem::Half { high, buffer, word }, rest)
}

// The item, told by its second letter; X has none.
#[tactic(auto, unfolding(crate::specs::Reading::item_in, crate::specs::Reading::numbered))]
fn item(text: &[u8]) -> (NamedItem, &[u8])
    ensures { GivesItem result (item_in text.now) }
{
    let named = skip(text, 2);
    match named {
        [b'a', ..] => {
            let (place, rest) = or_too_large(numbers::number(skip(text, 6)));
            (NamedItem::Bank(place), skip(rest, 1))
        }
        [b'e', ..] => {
            let (place, rest) = or_too_large(numbers::number(skip(text, 6)));
            (NamedItem::Help(place), skip(rest, 1))
        }
        [b'U', ..] => half(skip(text, 5)),
        _ => (NamedItem::X, named),
    }
}

// LL, VL and read only look; SC and write alter.
#[tactic(auto, unfolding(crate::specs::Reading::looks_in))]
fn looks(text: &[u8]) -> bool
    ensures { result ≡ looks_in text.now }
{
    matches!(skip(text, 1), [b'L' | b'V' | b'r', ..])
}

// The line that the text begins with; none where it is no command's.
#[tactic(auto, unfolding(crate::specs::Reading::line_in))]
pub fn line(text: &[u8]) -> Option<Line>
    ensures { result ≡ line_in text.now }
{
    let (_, rest) = numbers::number(text).ok()?;
    let (process, rest) = or_too_large(numbers::spaced_number(rest));
    if let [b's', ..] = skip(rest, 1) {
        return Some(Line {
            process,
            touched: None,
        });
    }
    let (_, rest) = or_too_large(numbers::spaced_number(rest));
    let (item, rest) = item(rest);
    let looks = looks(rest);
    Some(Line {
        process,
        touched: Some(Touch { item, looks }),
    })
}
