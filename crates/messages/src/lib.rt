// What a program says on standard error about a run: where and why it was refused, and which calls are still open. What
// it says of N, W, a process or a place is what the run reports: nothing is read out of the text again.

#![tactic(auto)]

ghost use Rattle.std.specs.Prelude.{◌≡◌, ◌⊎◌, OnOk, IfOk, IfErr, codes};
ghost use Rattle.std.specs.Process.{exit_status};
ghost use Rattle.std.specs.IoError.{error_kind};
ghost use Rattle.std.specs.Io.KnownBytes.{Appends};
ghost use Rattle.messages.specs.OpenLines.{still_open};

pub mod calls;
mod faults;
pub mod figure2;
mod items;
mod numbers;
mod open_calls;
mod pieces;
mod refusals;
mod shown;

use crate::calls::{Call, Figure};
use llsc::refusals::Refusal;
use positions::StopReport;
use std::io;
use std::io::{ErrorKind, Write};
use std::process::ExitCode;

// A run that has ended: why it was refused, if it was, the entries done, where it stopped, the calls that it leaves, and
// its text.
// Kept: no `Finished` of `text_runs`, so that no message waits for the proof of a run.
#[derive(Clone, Copy)]
pub struct Ended<'a> {
    pub outcome: Result<(), Refusal>,
    pub entries: usize,
    pub report: StopReport,
    pub left: Left,
    pub text: &'a [u8],
}

// The calls of the processes that a run leaves, and the figure of their lines.
#[derive(Clone, Copy)]
pub struct Left {
    pub figure: Figure,
    pub calls: [Option<Call>; 16],
}

// What was to be written to standard output is lost. The first word tells a script so.
pub fn not_written<W: Write>(to: &mut W) -> io::Result<()>
    ensures { OnOk result (Appends (W.contents to.old) (W.contents to.new)
        (codes "trouble: standard output could not be written\n")) }
{
    writeln!(to, "trouble: standard output could not be written")
}

// A run's output where it belongs, if there was room to make it. What is lost is told of, and only a cut pipe is an error.
pub fn output(to: &mut impl Write, errors: &mut impl Write, made: Option<&[u8]>) -> io::Result<()>
    ensures { IfErr result (λ lost. error_kind lost ≡ ErrorKind.BrokenPipe) }
{
    // Kept: a match: the closure of a `map` would be three functions more to prove.
    let written = match made {
        Some(bytes) => Some(to.write_all(bytes)),
        None => None,
    };
    match written {
        Some(Ok(())) => Ok(()),
        Some(Err(lost)) if console::is_cut(&lost) => Err(lost),
        _ => {
            let _ = not_written(errors);
            Ok(())
        }
    }
}

// The message of a run. Nothing where it was not refused and no call is open.
pub fn explain<W: Write>(to: &mut W, ended: Ended) -> io::Result<()>
    ensures { IfOk ended.entry.outcome (λ end. OnOk result (Appends (W.contents to.old) (W.contents to.new)
        (still_open ended.entry.left ended.entry.report))) }
{
    if let Err(refusal) = ended.outcome {
        refusals::tell(to, refusal, ended)?;
    }
    open_calls::still_open(to, ended.report, &ended.left)
}

// The end of a program that ran a text: the run's output, its message, and the status.
pub fn conclude(
    to: &mut impl Write,
    errors: &mut impl Write,
    made: Option<&[u8]>,
    ended: Ended,
) -> ExitCode
    ensures { (exit_status result ≡ 0) ⊎ (exit_status result ≡ 141) }
{
    let told = match output(to, errors, made) {
        Ok(()) => explain(errors, ended),
        lost => lost,
    };
    console::status(told)
}
