// One entry of a text run, by value, on the places taken out for it. Every function is inner; the loop over them is in
// `text_runs`.

#![tactic(auto)]

pub mod answer_lines;
pub mod entries;
pub mod refusals;
pub mod state;
pub mod turn;
