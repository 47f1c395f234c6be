// A held list of Moir's bench, read: where each number stands, what a command needs of them by value, and the refusal
// table over them.

#![tactic(auto)]

pub mod layout;
pub mod ranges;
pub mod reads;
pub mod table;
pub mod whole;
