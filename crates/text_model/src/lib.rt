// The meaning of a text run, and theorems about it: nothing here runs.

#![tactic(auto)]
