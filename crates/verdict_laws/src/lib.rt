// Theorems about the bench's histories and the judge's verdicts: nothing here runs.

#![tactic(auto)]
