// The text run by value (01, "When the bench says no" and "Schedule text and listing"). The entry is
// text_run::run_by_value; every other pub function is inner.

#![tactic(auto)]

pub mod carrying;
pub mod set_up;
mod starter;
pub mod text_run;
