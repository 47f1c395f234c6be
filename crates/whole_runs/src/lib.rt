// A whole text run by value, over what any bench does of it: the loop over its entries, and what stands before and after it.
// Every function is inner.

#![tactic(auto)]

pub mod entry_loop;
pub mod reading;
pub mod texts;
