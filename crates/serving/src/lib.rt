// Theorems about Figure 1's object and lists of calls, whatever the bench: nothing here runs.

#![tactic(auto)]
