// What a text run is, over any machine, and its parts that every bench has. Every function is inner.

#![tactic(auto)]

pub mod entries;
pub mod last_lines;
pub mod limits;
pub mod lists;
pub mod reports;
pub mod returned;
pub mod runs;
pub mod traces;
