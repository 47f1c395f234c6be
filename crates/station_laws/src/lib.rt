// Theorems about the definitions of `station`: nothing here runs.

#![tactic(auto)]
