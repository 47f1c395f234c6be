// Schedules in dictionary order (CR 5): specs/Schedules has them, and enumeration the code.

#![tactic(auto)]
