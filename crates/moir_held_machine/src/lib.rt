// A held list of Moir's bench, set up, and its commands: refused by the table, or obeyed on the numbers themselves.

#![tactic(auto)]

mod obeying;
mod replies;
pub mod setting;
pub mod stepping;
mod writes;
