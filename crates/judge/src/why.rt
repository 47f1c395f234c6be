// Why the verdict is not yes.
use crate::calls::{Call, Log, Span};
use crate::{log_lines, refusals};
use std::io;
use std::io::Write;
use verdicts::{Fault, Judgement, Shown};

pub(crate) fn explain(to: &mut impl Write, judgement: Judgement, log: Log) -> io::Result<()> {
    match judgement {
        Judgement::Yes => Ok(()),
        Judgement::No(fault) => {
            no(to, fault, log)?;
            log_lines::remark(to, log)
        }
        Judgement::Refused(refusal) => {
            refusals::refused(to, refusal, log)?;
            log_lines::remark(to, log)
        }
    }
}

fn no(to: &mut impl Write, fault: Fault, log: Log) -> io::Result<()> {
    write!(to, "no: condition ")?;
    // Kept: each fault has its own calls, one or two, or what the object answers, which its own words tell.
    match fault {
        Fault::Unknown(call) => unknown(to, log.call(call)),
        Fault::Overlap(call, other) => overlap(to, log.call(call), log.call(other)),
        Fault::Moment(call, other) => moment(to, log.call(call), log.call(other)),
        Fault::Outside(call) => outside(to, log.call(call)),
        Fault::Answer(call, shown) => answer(to, log.call(call), shown, log),
        Fault::Unled(call) => no_ll(to, log.call(call)),
    }?;
    writeln!(to)
}

fn unknown(to: &mut impl Write, call: Call) -> io::Result<()> {
    write!(
        to,
        "1: line {}: {call} has the kind {}, not 1 (LL), 2 (SC) or 3 (VL)",
        call.line, call.head.kind
    )
}

fn overlap(to: &mut impl Write, call: Call, other: Call) -> io::Result<()> {
    write!(
        to,
        "2: line {} and line {}: {} and {} overlap",
        call.line,
        other.line,
        Span(call),
        Span(other)
    )
}

fn moment(to: &mut impl Write, call: Call, other: Call) -> io::Result<()> {
    write!(
        to,
        "3: line {} and line {}: {call} and {other} have one moment, {}",
        call.line, other.line, call.head.moment
    )
}

fn outside(to: &mut impl Write, call: Call) -> io::Result<()> {
    write!(
        to,
        "4: line {}: {} has the moment {}, not after its start and by its answer",
        call.line,
        Span(call),
        call.head.moment
    )
}

fn answer(to: &mut impl Write, call: Call, shown: Shown, log: Log) -> io::Result<()> {
    write!(to, "5: line {}: {call} answered ", call.line)?;
    match shown {
        Shown::Truth(_) => write!(to, "{}", call.head.truth),
        _ => write!(to, "{}", call.words),
    }?;
    write!(to, "; Figure 1's object answers ")?;
    match shown {
        Shown::Truth(truth) => write!(to, "{}", u64::from(truth)),
        Shown::Value => write!(to, "{}, the value", log.value()),
        Shown::WordsOf(other) => {
            let sc = log.call(other);
            write!(to, "{}, written by the SC of line {}", sc.words, sc.line)
        }
    }
}

fn no_ll(to: &mut impl Write, call: Call) -> io::Result<()> {
    write!(
        to,
        "6: line {}: {call} has no LL of its process before it in the order of the moments",
        call.line
    )
}
