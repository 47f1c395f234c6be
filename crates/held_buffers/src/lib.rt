// Where each buffer of a record is (02, CR 9), over a held list.

#![tactic(auto)]

pub mod holders;
pub mod telling;
