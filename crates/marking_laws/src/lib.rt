// The marks of a whole text run: nothing here runs. What is promised stands in specs/MarkedRun.

#![tactic(auto)]
