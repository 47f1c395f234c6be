// The lines of Figure 6 that touch the header.
// Kept: a bound of the count as a clause: a type would be remade where a line hands on a changed record.
ghost use Rattle.std.specs.Prelude.{◌≡◌, ◌<◌};
ghost use Rattle.moir_model.specs.Lines.{gone_on, do_line10, saves, do_line13, do_line14, cas_header, do_line19};
ghost use Rattle.moir_lines.specs.Answers.{answered_by};
ghost use Rattle.moir_lines.specs.Copies.{copy_line7};
ghost use Rattle.moir_lines.specs.Ranges.{Moving};

use crate::compare_and_swap::cas;
use crate::copies::CopyOf;
use crate::{points, records};
use moir_model::{Header, LineStep, Process, Reply};

// A step with no answer.
fn goes_on(process: Process) -> LineStep
    ensures { result ≡ gone_on process }
{
    LineStep {
        process,
        reply: Reply::Accepted,
    }
}

// A step that answers.
fn answers(reply: Reply, process: Process) -> LineStep
    ensures { result ≡ answered_by reply process }
{
    LineStep {
        process: records::rested(process),
        reply,
    }
}

// Lines 10 to 12: x and keep.
pub fn do_line_10(header: Header, process: Process) -> Process
    requires { process.count < 4294967296 }
    ensures { result ≡ do_line10 header process }
{
    Process {
        keep: header.tag,
        x: header,
        ..records::to(points::WLL_2, process)
    }
}

// Line 7 in a WLL: whether the header is still x, so that line 8 saves the word.
pub fn saves_word(header: Header, process: Process) -> bool
    ensures { result ≡ saves header process }
{
    header == process.x
}

// Lines 7 to 9 in Copy over w words, and line 21. A WLL answers the words, or names the process of another header; an SC
// ignores what Copy returns.
pub fn do_line_7(copy: CopyOf, w: usize, header: Header, process: Process) -> LineStep
    requires { Moving w process }
    ensures { result ≡ copy_line7 copy w header process }
{
    let word = process.word + 1;
    let count = process.count + 1;
    let same = header == copy.header(process);
    let seen = Process {
        h: header,
        ..process
    };
    if same && word < w {
        return goes_on(Process {
            word,
            ..records::to(copy.line(2), seen)
        });
    }
    match copy {
        CopyOf::Wll => {
            let reply = if same {
                Reply::WllAnswered(count)
            } else {
                Reply::WllNamed(header.pid, count)
            };
            answers(
                reply,
                Process {
                    answered: true,
                    ..seen
                },
            )
        }
        CopyOf::Sc => answers(Reply::ScAnswered(true, count), seen),
    }
}

// Line 13.
pub fn do_line_13(header: Header, process: Process) -> LineStep
    requires { process.count < 4294967296 }
    ensures { result ≡ do_line13 header process }
{
    let valid = header.tag == process.keep;
    answers(Reply::VlAnswered(valid, process.count + 1), process)
}

// Lines 14 and 15: oldhdr, and whether its tag is the one kept.
pub fn do_line_14(header: Header, process: Process) -> LineStep
    requires { process.count < 4294967296 }
    ensures { result ≡ do_line14 header process }
{
    let seen = Process {
        oldhdr: header,
        ..process
    };
    if header.tag == process.keep {
        goes_on(records::to(points::SC_17, seen))
    } else {
        answers(Reply::ScAnswered(false, process.count + 1), seen)
    }
}

// Line 19: what the CAS leaves in the header.
pub fn cas_header(header: Header, process: Process) -> Header
    ensures { result ≡ cas_header header process }
{
    cas(header, process.oldhdr, process.newhdr)
}

// Line 19: the CAS is done, and line 20's Copy follows; or the SC answers false.
pub fn do_line_19(header: Header, process: Process) -> LineStep
    requires { process.count < 4294967296 }
    ensures { result ≡ do_line19 header process }
{
    if header == process.oldhdr {
        goes_on(records::to(points::SC_2, process))
    } else {
        answers(Reply::ScAnswered(false, process.count + 1), process)
    }
}
