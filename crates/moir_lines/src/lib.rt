// The lines of Figure 6, each on the one item that it touches and on its own process, by value.

#![tactic(auto)]

mod compare_and_swap;
pub mod copies;
pub mod on_array;
pub mod on_header;
pub mod on_segment;
pub mod points;
pub mod records;
