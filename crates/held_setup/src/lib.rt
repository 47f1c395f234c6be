// The set-up of a held list. What N, W and R do not need stays.

#![tactic(auto)]

pub mod runs;
pub mod setting;
