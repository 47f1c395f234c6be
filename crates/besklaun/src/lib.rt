// What C and Rust programs call, as Rattle has it: the proved entries that work on plain slices. `besklaun_c`, the static
// library, exports each of these functions by its name; `library/besklaun.h` declares them.
// A file for each subject. None of these functions asks anything of its caller.

#![tactic(auto)]

pub mod board_files;
pub mod explained;
pub mod held_lists;
pub mod logs;
pub mod marks;
pub mod moir_lists;
pub mod moir_texts;
pub mod schedules;
pub mod seasons;
pub mod texts;
pub mod versions;
pub mod views;
