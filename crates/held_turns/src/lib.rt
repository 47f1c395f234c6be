// A turn of process 0 or 1 (02, CR 5) on a station that a caller holds as one lent list of numbers.

#![tactic(auto)]

pub mod turning;

use held_model::Told;

// What a turn tells: what the command that it gave told, or that it passed; and how many calls are left on the list.
// Kept: numbers in place of an enum, as C reads them.
#[repr(C)]
#[derive(Clone, Copy)]
pub struct HeldTurn {
    pub told: Told,
    pub passed: bool,
    pub left: usize,
}
