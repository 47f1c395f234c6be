// What an accepted command to a station found, and laws of its records' rows and tables: no code.

#![tactic(auto)]
