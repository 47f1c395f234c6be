// Whose Copy runs. A WLL calls it in line 12 and an SC in line 20, each with its own header.
ghost use Rattle.std.specs.Prelude.{◌≡◌, ◌≤◌};
ghost use Rattle.moir_lines.specs.Copies.{copy_line, copy_header};

use crate::points::COPY_OF_SC;
use moir_model::{Header, Process};

#[derive(Clone, Copy, PartialEq, Eq)]
pub enum CopyOf {
    Wll,
    Sc,
}

impl CopyOf {
    // The number that stands for a line of its Copy.
    // Kept: a number, as the line of a lent record is one (`points`).
    pub fn line(self, line: u8) -> u8
        requires { line ≤ 7 }
        ensures { result ≡ copy_line self line }
    {
        match self {
            CopyOf::Wll => line,
            CopyOf::Sc => COPY_OF_SC + line,
        }
    }

    // The header that its Copy was called with: x, or newhdr.
    pub fn header(self, process: Process) -> Header
        ensures { result ≡ copy_header self process }
    {
        match self {
            CopyOf::Wll => process.x,
            CopyOf::Sc => process.newhdr,
        }
    }
}
