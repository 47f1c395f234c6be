// A board's trace file (02, CR 12) run on a bench that is set up for it, with the listing of 01. Every function is inner;
// the static library `besklaun` exports it.

#![tactic(auto)]

pub mod commands;
pub mod ending;
pub mod listed;
pub mod records;
