// The run of a board's trace file on record 0 of a station (02, CR 12), by value. Every function is inner; the entry over
// lent memory is in `bench`.

#![tactic(auto)]

pub mod commands;
pub mod running;

use station_records::left::Left;

// What a run returns: the number of the refusal that ended it, 0 for none, and the commands done.
// Kept: 02 promises its users a number.
#[repr(C)]
#[derive(Clone, Copy)]
pub struct FileRun {
    pub number: u8,
    pub done: usize,
}

// What a run by value leaves to be stored back, nothing where nothing was done, and what it returns.
#[derive(Clone, Copy)]
pub struct RunLeft {
    pub left: Option<Left>,
    pub ran: FileRun,
}
