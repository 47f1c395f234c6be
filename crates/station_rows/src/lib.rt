// The refusal table of a command to a station, over the station record and the process records by value.

#![tactic(auto)]

pub mod causes;
pub mod commands;
pub mod ranges;
pub mod sizes;
pub mod table;
