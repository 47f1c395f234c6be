// A text on a station that a caller holds as one list of numbers: the state that its first entries leave. The entry is
// `states::after_text`; every other function is inner.

#![tactic(auto)]

pub mod commands;
pub mod running;
pub mod starting;
pub mod states;
