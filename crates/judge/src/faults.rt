// Why a text is no log, and where.
use logtext::{Fault, number_places};
use saying::{Named, Place};
use std::io;
use std::io::Write;

pub(crate) fn too_long(to: &mut impl Write) -> io::Result<()> {
    writeln!(
        to,
        "the text has 2,097,152 bytes or more; nothing was judged"
    )
}

pub(crate) fn lacks_n_and_w(to: &mut impl Write, count: usize) -> io::Result<()> {
    writeln!(
        to,
        "the text lacks N and W: its numbers are {count}; nothing was judged"
    )
}

// The fault, and how many numbers were read before it.
pub(crate) fn tell(to: &mut impl Write, fault: Fault, count: usize, text: &[u8]) -> io::Result<()> {
    match fault {
        Fault::StrayByte => stray(to, text),
        Fault::TooLarge => {
            number(to, text, count)?;
            write!(to, ": a number of 2^64 or more")
        }
        Fault::TooMany => {
            number(to, text, count)?;
            write!(to, ": the text has more than 65,536 numbers")
        }
    }?;
    writeln!(to, "; nothing was judged")
}

// Where the number of this index stands.
// Kept: `index` counts numbers and not bytes, as at `number_place`, so that no text is cut there.
fn number(to: &mut impl Write, text: &[u8], index: usize) -> io::Result<()> {
    let place = number_places::number_place(text, index);
    saying::position(to, Place::of(text, place))
}

fn stray(to: &mut impl Write, text: &[u8]) -> io::Result<()> {
    let Some(place) = number_places::stray_place(text) else {
        return Ok(());
    };
    saying::position(to, Place::of(text, place))?;
    write!(to, ": {} is no digit and no space", Named(text[place]))
}
