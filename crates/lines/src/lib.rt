// The lines of Figure 2, each over the one shared place that it touches and its own process record (01, "Commands and
// steps").

#![tactic(auto)]

pub mod on_bank;
pub mod on_help;
pub mod on_words;
pub mod on_x;
pub mod records;
pub mod sequence;

pub use model::points;
