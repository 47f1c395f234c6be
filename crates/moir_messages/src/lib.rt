// What a program says on standard error about a run on Moir's bench, in the words of `messages`: its calls with the lines
// of Figure 6.

#![tactic(auto)]

ghost use Rattle.std.specs.Prelude.{◌≡◌, map};
ghost use Rattle.moir_messages.specs.MoirCalls.{kind_of, figure_line, moves_of, call_of};

use messages::Left;
use messages::calls::{Call, Figure, Kind, Moves};
use moir_lines::points;
use moir_model::Process;

// The calls of the processes with these records.
// Kept: beside Figure 2's own, as the records are; what is alike is one `map`.
pub fn left(all: [Process; 16]) -> Left
    ensures figure { result.figure ≡ Figure.Six }
    ensures calls { result.calls ≡ map call_of all }
{
    let calls = all.map(|process| call_of(process));
    Left {
        figure: Figure::Six,
        calls,
    }
}

fn call_of(process: Process) -> Option<Call>
    ensures { result ≡ call_of process }
{
    let line = figure_line(process.line);
    Some(Call {
        kind: kind_of(process.line)?,
        line,
        moves: moves_of(line),
        place: process.word,
        count: process.count,
    })
}

// The kind of the call whose next line has this number, if there is one.
fn kind_of(line: u8) -> Option<Kind>
    ensures { result ≡ kind_of line }
{
    match line {
        points::IDLE => None,
        ..=points::WLL_10 => Some(Kind::Ll),
        points::VL_13 => Some(Kind::Vl),
        _ => Some(Kind::Sc),
    }
}

// Figure 6's own line.
// Kept: a number, as Figure 6 numbers its lines: a message shows it, and `moves_of` takes ranges of them.
fn figure_line(line: u8) -> u8
    ensures { result ≡ figure_line line }
{
    if line > points::COPY_OF_SC {
        line - points::COPY_OF_SC
    } else {
        line
    }
}

// Copy's lines work on word i, and line 17 writes it.
fn moves_of(line: u8) -> Option<Moves>
    ensures { result ≡ moves_of line }
{
    match line {
        ..=points::WLL_7 | points::SC_17 => Some(Moves::Whole),
        _ => None,
    }
}
