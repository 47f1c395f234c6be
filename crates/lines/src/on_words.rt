// The lines of Figure 2 that move words, one half word to a step: what they make of their own process. `moves` is how
// many a run has.
ghost use Rattle.std.specs.Prelude.{◌≡◌};
ghost use Rattle.model.specs.Lines.{do_line11, do_word_then};
ghost use Rattle.lines.specs.Ranges.{Moving};

use crate::records;
use model::{Process, Reply, WordStep};

// Lines 3, 6, 7's copy and 17: another line follows the last move.
#[inline(always)]
pub fn do_word(moves: usize, line: u8, process: Process) -> WordStep
    requires { Moving moves process }
    ensures { result ≡ do_word_then moves line process }
{
    let process = if process.word + 1 < moves {
        records::next_word(process)
    } else {
        records::to(line, Process { word: 0, ..process })
    };
    WordStep {
        process,
        reply: Reply::Accepted,
    }
}

// Line 11: the last move answers.
#[inline(always)]
pub fn do_line_11(moves: usize, process: Process) -> WordStep
    requires { Moving moves process }
    ensures { result ≡ do_line11 moves process }
{
    if process.word + 1 < moves {
        return WordStep {
            process: records::next_word(process),
            reply: Reply::Accepted,
        };
    }
    let passed = Process {
        word: 0,
        answered: true,
        ..process
    };
    WordStep {
        process: records::rested(passed),
        reply: Reply::LlAnswered(process.count + 1),
    }
}
