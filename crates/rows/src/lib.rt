// The refusal table of a command, over the bench and the records by value.

#![tactic(auto)]

pub mod causes;
pub mod ranges;
pub mod table;
