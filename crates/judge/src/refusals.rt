// Why a log is refused, and where.
use crate::calls;
use crate::calls::{Call, Log};
use logtext::number_places;
use std::io;
use std::io::Write;
use verdicts::{LogRefusal, Place};

pub(crate) fn refused(to: &mut impl Write, refusal: LogRefusal, log: Log) -> io::Result<()> {
    write!(to, "refused {}: ", refusal.refusal().number())?;
    // Kept: each arm writes what its own refusal is about: N or W, a call, or the value.
    match refusal {
        LogRefusal::NOutOfRange => range(to, 0, "N", 16, log),
        LogRefusal::WOutOfRange => range(to, 1, "W", 64, log),
        LogRefusal::NoSuchProcess(call) => process(to, log.call(call), log),
        LogRefusal::ValueNotWWords(Place::Call(call)) => call_cut_off(to, call, log),
        LogRefusal::ValueNotWWords(Place::Value) => value_cut_off(to, log),
        LogRefusal::TooManyCalls => too_many(to, log),
        LogRefusal::AnswerNotAfterStart(call) => backwards(to, log.call(call)),
    }?;
    writeln!(to)
}

// N or W, the number of an index, is not in its range.
fn range(to: &mut impl Write, index: usize, name: &str, most: u64, log: Log) -> io::Result<()> {
    let place = number_places::number_place(log.text, index);
    saying::line(to, saying::Place::of(log.text, place))?;
    let number = calls::at(log.numbers, index);
    write!(to, ": {name} is {number}, not 1 to {most}")
}

fn process(to: &mut impl Write, call: Call, log: Log) -> io::Result<()> {
    let n = calls::at(log.numbers, 0);
    write!(
        to,
        "line {}: process {} is not below N, {n}",
        call.line, call.head.process
    )
}

fn call_cut_off(to: &mut impl Write, call: usize, log: Log) -> io::Result<()> {
    let w = calls::width(log.numbers);
    let line = log.line(call);
    let left = log.left(call);
    write!(
        to,
        "line {line}: the last call has {left} numbers, not {}",
        6 + w
    )
}

fn value_cut_off(to: &mut impl Write, log: Log) -> io::Result<()> {
    let w = calls::width(log.numbers);
    write!(to, "the text ends within the value; W is {w}")
}

fn too_many(to: &mut impl Write, log: Log) -> io::Result<()> {
    let line = log.line(512);
    write!(to, "line {line}: the 513th call; a log has at most 512")
}

fn backwards(to: &mut impl Write, call: Call) -> io::Result<()> {
    write!(
        to,
        "line {}: {call} has the answer place {}, not after its start place, {}",
        call.line, call.head.answer, call.head.start
    )
}
