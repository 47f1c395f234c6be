// Names of bytes, and places of a text, to a writer, for the programs, which hand in standard error. What can't be
// written there is lost: there is no other place to say so, and so a program lets the error go.

#![tactic(auto)]

ghost use Rattle.std.specs.Prelude.{◌≡◌, ◌++◌, Some, OnOk, codes};
ghost use Rattle.std.specs.Fmt.{decimal as Fmt·decimal};
ghost use Rattle.std.specs.Io.KnownBytes.{Appends};
ghost use Rattle.console.specs.Counts.{IsPrefixLen};
ghost use Rattle.saying.specs.Told.{place_after, place_in, place_text, position_text, name_text, byte_name};
ghost use Rattle.saying.specs.Within.{within_text};

use positions::Seen;
use std::io::Write;
use std::{fmt, io};

// A place of a text by its line and its column, both from 1 on.
#[derive(Clone, Copy)]
pub struct Place {
    pub line: usize,
    pub column: usize,
}

impl Place {
    // The place after what was seen.
    pub fn after(seen: Seen) -> Place
        ensures { result ≡ place_after seen }
    {
        Place {
            line: seen.feeds.saturating_add(1),
            column: seen.since.saturating_add(1),
        }
    }

    // The place that has so many of the text's bytes before it, or the text's end.
    // Kept: a place beside its text: what a run tells is a number, and may be past the end.
    pub fn of(text: &[u8], at: usize) -> Place
        ensures { result ≡ place_in text.now at }
    {
        Place::after(positions::look(&text[..within(at, text)]))
    }
}

impl fmt::Display for Place {
    ghost output = { λ p. Some (place_text p) };

    fn fmt<W: fmt::Write>(&self, f: &mut fmt::Formatter<W>) -> fmt::Result {
        write!(f, "{}:{}", self.line, self.column)
    }
}

// A byte by its name, or by itself where it has a shape.
#[derive(Clone, Copy)]
pub struct Named(pub u8);

// The name of a byte that has no shape, where it is one of these four.
// Kept: apart from the one write, as each write is proved for any writer.
fn name(byte: u8) -> &'static str
    ensures { result.now ≡ name_text byte }
{
    match byte {
        b'\t' => "a tab",
        b'\n' => "a line feed",
        b'\r' => "a carriage return",
        _ => "a space",
    }
}

impl fmt::Display for Named {
    ghost output = { λ b. Some (byte_name b.0) };

    fn fmt<W: fmt::Write>(&self, f: &mut fmt::Formatter<W>) -> fmt::Result {
        match self.0 {
            b'\t' | b'\n' | b'\r' | b' ' => f.write_str(name(self.0)),
            b'!'..=b'~' => write!(f, "{}", char::from(self.0)),
            _ => write!(f, "byte {}", self.0),
        }
    }
}

// The line of a place.
pub fn line<W: Write>(to: &mut W, place: Place) -> io::Result<()>
    ensures { OnOk result (Appends (W.contents to.old) (W.contents to.new)
        (codes "line " ++ Fmt·decimal place.line)) }
{
    write!(to, "line {}", place.line)
}

// Its line and column.
pub fn position<W: Write>(to: &mut W, place: Place) -> io::Result<()>
    ensures { OnOk result (Appends (W.contents to.old) (W.contents to.new) (position_text place)) }
{
    line(to, place)?;
    write!(to, ", column {}", place.column)
}

// A place of the text, at most its end: what may be lent as its beginning.
pub fn within(place: usize, text: &[u8]) -> usize
    ensures prefix_len { IsPrefixLen result text.now }
    ensures value { result ≡ within_text place text.now }
{
    place.min(text.len())
}
