// What is claimed of memory that commands have made, on the definitions of `model`: nothing here runs.

#![tactic(auto)]
