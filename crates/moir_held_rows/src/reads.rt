// What a command needs of the numbers, by value. They are in range, and so fit.
ghost use Rattle.std.specs.Prelude.{◌≡◌, ◌+◌, ◌<◌, ◌≤◌, length};
ghost use Rattle.held_model.specs.Memory.{number_at};
ghost use Rattle.moir_held_model.specs.Memory.{header_from, segment_from, process_from};
ghost use Rattle.moir_held_rows.specs.Reads.{HeaderFits, ProcessFits};

use crate::layout;
use llsc::ProcessNumber;
use moir_model::{Header, Process, Segment};

// A header, whose numbers begin at k.
pub fn header_at(held: &[u64], k: usize) -> Header
    requires { (k + 2 ≤ length held.now) × HeaderFits (header_from held.now k) }
    ensures { result ≡ header_from held.now k }
{
    Header {
        tag: held[k] as u16,
        pid: ProcessNumber(held[k + 1] as u8),
    }
}

// A copy of a segment.
fn segment_at(held: &[u64], k: usize) -> Segment
    requires { (k + 2 ≤ length held.now) × (number_at held.now k < 65536) }
    ensures { result ≡ segment_from held.now k }
{
    Segment {
        tag: held[k] as u16,
        val: held[k + 1],
    }
}

// Process p.
pub fn process_at(held: &[u64], p: ProcessNumber) -> Process
    requires { (p.0 < 16) × ((340 ≤ length held.now) × ProcessFits (process_from held.now p.0)) }
    ensures { result ≡ process_from held.now p.0 }
{
    let at = layout::process_place(p);
    Process {
        line: held[at] as u8,
        word: held[at + 1] as usize,
        count: held[at + 2] as usize,
        answered: held[at + 3] != 0,
        keep: held[at + 4] as u16,
        x: header_at(held, at + 5),
        oldhdr: header_at(held, at + 7),
        newhdr: header_at(held, at + 9),
        h: header_at(held, at + 11),
        y: segment_at(held, at + 13),
        z: segment_at(held, at + 15),
    }
}
