// What a step or a start does to the line, the count and the word place of its own process.
ghost use Rattle.std.specs.Prelude.{◌≡◌, ◌+◌, ◌<◌};
ghost use Rattle.model.specs.Records.{to_line, rest, begin_line, next_word};

use crate::points::IDLE;
use model::Process;

// A step goes on at another line, and adds 1 to the count.
// Kept: `to` and `begun` beside `moir_lines`' own: each is one update, which the two `impl`s of a trait would repeat.
pub fn to(line: u8, process: Process) -> Process
    requires { process.count < 4294967296 }
    ensures { result ≡ to_line line process }
{
    Process {
        line,
        count: process.count + 1,
        ..process
    }
}

// The end of an answering step: lines 11, 19 and 23.
pub fn rested(process: Process) -> Process
    ensures { result ≡ rest process }
{
    begun(IDLE, process)
}

// A start at a call's first line: 1, 12 or 23.
pub fn begun(line: u8, process: Process) -> Process
    ensures { result ≡ begin_line line process }
{
    Process {
        line,
        count: 0,
        ..process
    }
}

// A step that stays at its line, with the next word before it.
pub fn next_word(process: Process) -> Process
    requires { (process.word + 1 < 18446744073709551616) × (process.count < 4294967296) }
    ensures { result ≡ next_word process }
{
    let passed = Process {
        word: process.word + 1,
        ..process
    };
    to(process.line, passed)
}
