// A schedule text on Moir's bench, with a listing or with a trace. The entry is texts::run_text; every other function is
// inner.

#![tactic(auto)]

mod entries;
mod starter;
pub mod texts;
mod turns;
mod written_lines;
