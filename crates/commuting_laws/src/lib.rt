// Theorems about the definitions of `station` and `doings`: nothing here runs.

#![tactic(auto)]
