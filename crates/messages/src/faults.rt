// A fault of a text, 10 or 11: where it is, what was expected there, and what stands there.
ghost use Rattle.std.specs.Prelude.{◌≡◌};
ghost use Rattle.messages.specs.Shown.{is_order_mark};

use crate::pieces::{NONE, Piece};
use llsc::refusals::Refusal;
use positions::Seen;
use saying::{Named, Place};

// The bytes with which some editors begin a text.
const ORDER_MARK: [u8; 3] = [0xEF, 0xBB, 0xBF];

// Why the text is refused at a place of it, by what was seen before that.
// Kept: the place beside its text, as a run reports by a number where it stopped; the text is cut there here.
pub(crate) fn why(refusal: Refusal, text: &[u8], place: usize, seen: Seen) -> [Piece<'static>; 6] {
    match refusal {
        Refusal::TooDeep => {
            let text = b"groups nest at most eight deep, and this ( would open a ninth\n";
            [Piece::Text(text), NONE, NONE, NONE, NONE, NONE]
        }
        _ => {
            let (before, rest) = text.split_at(saying::within(place, text));
            broken(before, rest, seen)
        }
    }
}

// The text breaks the notation between these bytes and the rest.
fn broken(before: &[u8], rest: &[u8], seen: Seen) -> [Piece<'static>; 6] {
    if is_order_mark(rest) {
        let text = b"the text begins with a byte order mark; save it as plain text, without one\n";
        return [Piece::Text(text), NONE, NONE, NONE, NONE, NONE];
    }
    let here = rest.first().copied();
    let expected = Piece::Text(expected(seen, here).as_bytes());
    match here {
        Some(here) => [
            expected,
            Piece::Text(b"; here is "),
            Piece::Byte(Named(here)),
            Piece::Text(b"\n"),
            NONE,
            NONE,
        ],
        None => at_end(expected, before),
    }
}

// At the text's end: where the group begins that is open there.
fn at_end(expected: Piece<'static>, text: &[u8]) -> [Piece<'static>; 6] {
    match positions::unclosed(text) {
        None => [
            expected,
            Piece::Text(b"; here the text ends\n"),
            NONE,
            NONE,
            NONE,
            NONE,
        ],
        Some(at) => {
            let place = Place::of(text, at);
            [
                expected,
                Piece::Text(b"; here the text ends; its ( is at "),
                Piece::Number(place.line as u64),
                Piece::Text(b":"),
                Piece::Number(place.column as u64),
                Piece::Text(b"\n"),
            ]
        }
    }
}

fn is_order_mark(rest: &[u8]) -> bool
    ensures { result ≡ is_order_mark rest.now }
{
    rest.starts_with(&ORDER_MARK)
}

// What is expected after what was seen. Nothing is here where the text ends.
fn expected(s: Seen, here: Option<u8>) -> &'static str {
    let in_number = is_digit(s.last);
    if in_number && is_digit(here) {
        stray_digit(s)
    } else if s.feeds == 0 {
        in_first_line(s.spaces, in_number)
    } else {
        in_items(s, in_number, here)
    }
}

fn is_digit(byte: Option<u8>) -> bool {
    matches!(byte, Some(b'0'..=b'9'))
}

// Behind the first line.
// Kept: the arms choose by patterns of the byte and by a guard, in their order, which no table of closures can show.
fn in_items(s: Seen, in_number: bool, here: Option<u8>) -> &'static str {
    match s.last {
        Some(b's') => "after s comes a number",
        Some(b'\n' | b' ' | b'(') => before_item(s.solid, here),
        // the number is the value of an `s`, or the first of its item
        _ if in_number && !matches!(s.mark, Some(b's')) => after_number(here),
        _ => after_item(here),
    }
}

// A digit after a digit is wrong only after a leading zero, or where it makes the number too large.
fn stray_digit(s: Seen) -> &'static str {
    if matches!(s.last, Some(b'0')) && !is_digit(s.earlier) {
        "a number has no leading zero"
    } else {
        "a number is at most 4,294,967,295"
    }
}

// The first line is N, W and the initial number.
fn in_first_line(spaces: usize, in_number: bool) -> &'static str {
    match (spaces, in_number) {
        (0, true) => "after N comes one space",
        (1, true) => "after W comes one space",
        (_, true) => "after the initial number comes a line feed",
        (0, false) => "the text begins with N, a number",
        (1, false) => "after N and one space comes W, a number",
        (_, false) => "after W and one space comes the initial number",
    }
}

fn after_number(here: Option<u8>) -> &'static str {
    match here {
        Some(b'(') => "the count of a group is 1 to 255",
        _ => "after a process number comes one of l v . ! s, or ( after a count",
    }
}

fn before_item(solid: Option<u8>, here: Option<u8>) -> &'static str {
    match here {
        None => "an open group ends with )",
        Some(b')') if solid == Some(b'(') => "a group has at least one item",
        Some(b')') => "no group is open",
        Some(_) => "an item begins with a process number, or with the count of a group",
    }
}

fn after_item(here: Option<u8>) -> &'static str {
    match here {
        None => "an open group ends with )",
        Some(b')') => "no group is open",
        Some(_) => "after an item comes a space, a line feed or the ) of its group",
    }
}
