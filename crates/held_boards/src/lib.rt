// A board's trace file (02, CR 12) run on record 0 of a station that a caller holds as one lent list of numbers. The entry
// is `running::run_file`.

#![tactic(auto)]

pub mod running;
