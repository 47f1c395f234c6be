// A trace with the marks of its lines, two columns before each.
ghost use Rattle.std.specs.Prelude.{◌≡◌, ◌+◌, ◌≤◌, ◌<◌, length, take, drop};
ghost use Rattle.std.specs.List.{position};
ghost use Rattle.listing.specs.Writing.{Wrote, Writes};
ghost use Rattle.marking.specs.Marked.{mark_text, marked};
ghost use Rattle.marking.specs.CopiedLines.{is_feed, LineEnd, CopiedLine};

use crate::{may_swap, reading};
use listing::Writer;

// Bytes behind those that are written, as many as there is room for; those that do not fit are counted as well.
fn put(to: &mut Writer<'_>, bytes: &[u8])
    requires { to.old.written + length bytes.now < 18446744073709551616 }
    ensures { Writes to.old bytes.now to.new }
{
    for byte in bytes {
        if to.written < to.list.len() {
            to.list[to.written] = *byte;
        }
        to.written += 1;
    }
}

// The mark.
fn put_mark(to: &mut Writer<'_>, marked: bool)
    requires { to.old.written + 2 < 18446744073709551616 }
    ensures { Writes to.old (mark_text marked) to.new }
{
    put(to, if marked { b"~ " } else { b"  " });
}

// The place of the first line feed.
fn first_feed(text: &[u8]) -> Option<usize>
    ensures { result ≡ position is_feed text.now }
{
    text.iter().position(|byte| *byte == b'\n')
}

// Where the first line ends, behind its line feed.
#[tactic(auto, using(crate::proofs::MarkedLaws::line_end_found))]
fn line_end(text: &[u8]) -> usize
    ensures { LineEnd text.now result }
{
    first_feed(text).map_or(text.len(), |i| i + 1)
}

// The first line with its line feed; the text behind it.
fn copy_line<'a>(text: &'a [u8], to: &mut Writer<'_>) -> &'a [u8]
    requires { to.old.written + length text.now < 18446744073709551616 }
    ensures { CopiedLine text.now to.old to.new result }
{
    let (line, rest) = text.split_at(line_end(text));
    put(to, line);
    rest
}

// The whole trace. The reply is the length of the marked trace; what does not fit is not written.
#[tactic(auto, using(crate::proofs::MarkedLaws::no_bytes, crate::proofs::MarkedLaws::marking_end, crate::proofs::MarkedLaws::in_list))]
pub fn mark_lines(text: &[u8], out: &mut [u8]) -> usize
    requires { length text.now ≤ 4294967295 }
    ensures { Wrote out.old 0 (marked text.now) out.new result }
{
    let mut before = None;
    let mut rest = text;
    let mut to = Writer {
        list: out,
        written: 0,
    };
    while !rest.is_empty() {
        let line = reading::line(rest);
        put_mark(&mut to, may_swap(before, line));
        rest = copy_line(rest, &mut to);
        before = line;
    }
    to.written
}
