// The lines of Figure 6 that touch a segment. `hdr` is the header that Copy was called with.
ghost use Rattle.std.specs.Prelude.{◌≡◌, ◌<◌};
ghost use Rattle.moir_model.specs.Lines.{do_line2, do_line5, do_line6};

use crate::compare_and_swap::cas;
use crate::records;
use moir_model::{Header, Process, Segment};

// Lines 2 and 3: the segment is read. If its tag is the one before, `line4` follows, else `line7`.
pub fn do_line_2(line4: u8, line7: u8, hdr: Header, segment: Segment, process: Process) -> Process
    requires { process.count < 4294967296 }
    ensures { result ≡ do_line2 line4 line7 hdr segment process }
{
    let previous = hdr.tag.wrapping_sub(1);
    let line = if segment.tag == previous {
        line4
    } else {
        line7
    };
    Process {
        y: segment,
        ..records::to(line, process)
    }
}

// Line 5: what the CAS leaves in the segment.
pub fn do_line_5(segment: Segment, process: Process) -> Segment
    ensures { result ≡ do_line5 segment process }
{
    cas(segment, process.y, process.z)
}

// Line 6: the segment is read again.
pub fn do_line_6(line: u8, segment: Segment, process: Process) -> Process
    requires { process.count < 4294967296 }
    ensures { result ≡ do_line6 line segment process }
{
    Process {
        y: segment,
        ..records::to(line, process)
    }
}
