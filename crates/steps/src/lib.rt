// A step or a start, on the places taken out for it, on its process and on the lent words.

#![tactic(auto)]

pub mod orders;
pub mod step;
pub mod word_steps;
