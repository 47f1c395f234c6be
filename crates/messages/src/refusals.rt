// The line of a refusal: where the run was refused, and why.
use crate::pieces::{self, NONE, Piece};
use crate::{Ended, faults, items, numbers};
use llsc::refusals::Refusal;
use positions::{Seen, StopReport};
use saying::Place;
use std::io;
use std::io::Write;

pub(crate) fn tell(to: &mut impl Write, refusal: Refusal, ended: Ended) -> io::Result<()> {
    let seen = before_fault(ended);
    pieces::say(to, &place(refusal, ended, seen))?;
    pieces::say(to, &why(refusal, ended, seen))
}

// What stands before a fault of the text, looked at once: its place and what was expected there both come of it.
fn before_fault(ended: Ended) -> Seen {
    match ended.report {
        StopReport::AtFault(place) => {
            positions::look(&ended.text[..saying::within(place, ended.text)])
        }
        _ => Seen::default(),
    }
}

fn place(refusal: Refusal, ended: Ended<'_>, seen: Seen) -> [Piece<'_>; 12] {
    match ended.report {
        StopReport::NotRead => pieces::begun(refusal),
        StopReport::AtFault(_) => pieces::position(refusal, Place::after(seen)),
        StopReport::AtNoItem(sizes) => pieces::position(refusal, numbers::place(refusal, sizes)),
        StopReport::AtItem(_, item) => items::entry(refusal, ended, item.place),
    }
}

fn why(refusal: Refusal, ended: Ended, seen: Seen) -> [Piece<'static>; 6] {
    match ended.report {
        StopReport::NotRead => [Piece::Text(not_read(refusal)), NONE, NONE, NONE, NONE, NONE],
        StopReport::AtFault(place) => faults::why(refusal, ended.text, place, seen),
        StopReport::AtNoItem(sizes) => numbers::why(refusal, sizes),
        StopReport::AtItem(sizes, item) => items::why(refusal, item.process, sizes, &ended.left),
    }
}

// Why a text was not looked at. The programs lend room enough.
fn not_read(refusal: Refusal) -> &'static [u8] {
    match refusal {
        Refusal::NoRoom => b"there is too little room to write to\n",
        _ => b"the text has more than 16,384 bytes\n",
    }
}
