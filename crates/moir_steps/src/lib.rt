// A step or a start on the bench record, the process and the lent words.

#![tactic(auto)]

pub mod before;
pub mod item_steps;
pub mod items;
pub mod orders;
pub mod step;
pub mod word_places;
