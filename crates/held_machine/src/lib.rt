// A station that a caller holds as one lent list of numbers, stepped: commands that look at all of it, and commands that
// look at what they read alone.

#![tactic(auto)]

pub mod obeying;
pub mod orders;
pub mod replies;
pub mod stepping;
pub mod writes;
