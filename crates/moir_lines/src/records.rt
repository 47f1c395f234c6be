// The process record at another point: what the lines of Figure 6 do to their own process.
ghost use Rattle.std.specs.Prelude.{◌≡◌, ◌<◌};
ghost use Rattle.moir_model.specs.Records.{to_line, rest, begin_line};

use crate::points::IDLE;
use moir_model::Process;

// A step that goes on at another line adds 1 to the count.
// Kept: `to` and `begun` beside `lines`' own: each is one update, which the two `impl`s of a trait would repeat.
pub fn to(line: u8, process: Process) -> Process
    requires { process.count < 4294967296 }
    ensures { result ≡ to_line line process }
{
    let count = process.count + 1;
    Process {
        line,
        count,
        ..process
    }
}

// The end of an answering step.
pub fn rested(process: Process) -> Process
    ensures { result ≡ rest process }
{
    Process {
        line: IDLE,
        word: 0,
        count: 0,
        ..process
    }
}

// A start at a call's first line: 10, 13 or 14.
pub fn begun(line: u8, process: Process) -> Process
    ensures { result ≡ begin_line line process }
{
    Process {
        line,
        count: 0,
        ..process
    }
}
