// The lines of Figure 6 that touch the array A.
ghost use Rattle.std.specs.Prelude.{◌≡◌, ◌<◌};
ghost use Rattle.moir_model.specs.Lines.{do_line4, do_line17};
ghost use Rattle.moir_lines.specs.Ranges.{Moving};

use crate::{points, records};
use llsc::ProcessNumber;
use moir_model::{Header, Process, Segment};

// Line 4: a word of A is read into z.
pub fn do_line_4(line: u8, hdr: Header, word: u64, process: Process) -> Process
    requires { process.count < 4294967296 }
    ensures { result ≡ do_line4 line hdr word process }
{
    let tag = hdr.tag;
    Process {
        z: Segment { tag, val: word },
        ..records::to(line, process)
    }
}

// Lines 16 to 18: a word of A was written. After the last one the new header is made.
pub fn do_line_17(w: usize, p: ProcessNumber, process: Process) -> Process
    requires { Moving w process }
    ensures { result ≡ do_line17 w p process }
{
    let word = process.word + 1;
    if word < w {
        return Process {
            word,
            ..records::to(points::SC_17, process)
        };
    }
    let tag = process.oldhdr.tag.wrapping_add(1);
    Process {
        word: 0,
        newhdr: Header { tag, pid: p },
        ..records::to(points::SC_19, process)
    }
}
