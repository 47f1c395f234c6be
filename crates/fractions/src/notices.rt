// What the program says, beside the table.
use llsc::refusals::Refusal;
use saying::Place;
use std::alloc::Allocator;
use std::io;
use std::io::Write;
use sums::NotAdded;

pub(crate) fn usage(to: &mut impl Write) -> io::Result<()> {
    writeln!(to, "usage: fractions N W FILE...")
}

// A refusal by its number.
pub(crate) fn refused(to: &mut impl Write, refusal: Refusal) -> io::Result<()> {
    writeln!(to, "refused {}", refusal.number())
}

// A file whose name has more than 4,096 bytes.
pub(crate) fn no_name(to: &mut impl Write) -> io::Result<()> {
    writeln!(to, "fractions: the name of a file: File name too long")
}

// A file whose name is no UTF-8 text, so that it can't be opened.
pub(crate) fn no_text(to: &mut impl Write, name: &[u8]) -> io::Result<()> {
    to.write_all(name)?;
    writeln!(to, ": the name is not UTF-8")
}

// A file that can't be read: its name, and the operating system's words without the number of the error.
pub(crate) fn not_read<A: Allocator>(
    to: &mut impl Write,
    alloc: A,
    name: &[u8],
    error: io::Error,
) -> io::Result<()> {
    let all = format!(in alloc; "{error}")?;
    to.write_all(name)?;
    match all.split_once(" (os error ") {
        Some((words, _)) => writeln!(to, ": {words}"),
        None => writeln!(to, ": {all}"),
    }
}

// A file that is refused: its name, the number, and where it is no listing where it breaks, bytes counted from 0 and
// lines from 1.
pub(crate) fn file_refused(
    to: &mut impl Write,
    name: &[u8],
    why: NotAdded,
    text: &[u8],
) -> io::Result<()> {
    to.write_all(name)?;
    write!(to, ": refused {}", why.number())?;
    if let NotAdded::NoListing { at } = why {
        write!(to, " at byte {at}, ")?;
        saying::line(to, Place::of(text, at))?;
    }
    writeln!(to)
}

// Every 256 files of a longer season.
pub(crate) fn progress(to: &mut impl Write, done: usize, files: usize) -> io::Result<()> {
    if done % 256 == 0 {
        writeln!(to, "{done} of {files} files")?;
    }
    Ok(())
}
