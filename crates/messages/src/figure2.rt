// The calls of Figure 2's bench, as messages tell them.
ghost use Rattle.std.specs.Prelude.{◌≡◌, map};
ghost use Rattle.messages.specs.OpenCalls.{kind_of, figure_line, moves_of, call_of};

use crate::Left;
use crate::calls::{Call, Figure, Kind, Moves};
use model::{Process, points};

// The calls of the processes with these records.
// Kept: beside Moir's own, as the records are; what is alike is one `map`.
pub fn left(all: [Process; 16]) -> Left
    ensures figure { result.figure ≡ Figure.Two }
    ensures calls { result.calls ≡ map call_of all }
{
    let calls = all.map(|process| call_of(process));
    Left {
        figure: Figure::Two,
        calls,
    }
}

fn call_of(process: Process) -> Option<Call>
    ensures { result ≡ call_of process }
{
    Some(Call {
        kind: kind_of(process.line)?,
        line: figure_line(process.line),
        moves: moves_of(process.line),
        place: process.word,
        count: process.count,
    })
}

// The kind of the call whose next line has this number, if there is one.
fn kind_of(line: u8) -> Option<Kind>
    ensures { result ≡ kind_of line }
{
    match line {
        points::IDLE => None,
        ..=points::LINE_11 | points::LINE_7_COPY => Some(Kind::Ll),
        points::LINE_23 => Some(Kind::Vl),
        _ => Some(Kind::Sc),
    }
}

// The line of Figure 2 to which a program point belongs.
// Kept: a number, since a message shows it as Figure 2 numbers its lines, and nothing chooses by it.
fn figure_line(line: u8) -> u8
    ensures { result ≡ figure_line line }
{
    match line {
        points::LINE_7_COPY => points::LINE_7,
        points::LINE_12_VALID => points::LINE_12,
        points::LINE_14_VALID => points::LINE_14,
        _ => line,
    }
}

// CR 4: "Each word move in lines 3, 6, 7, 11 and 17 becomes two steps".
fn moves_of(line: u8) -> Option<Moves>
    ensures { result ≡ moves_of line }
{
    match line {
        points::LINE_3 | points::LINE_6 | points::LINE_7_COPY | points::LINE_11 | points::LINE_17 =>
            Some(Moves::Halves),
        _ => None,
    }
}
