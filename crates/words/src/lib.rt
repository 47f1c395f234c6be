// The lent words: where each lies, its halves, and runs of words.

#![tactic(auto)]

pub mod layouts;
pub mod word_places;
pub mod word_runs;
