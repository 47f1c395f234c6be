// Theorems about the histories of a station's records and the judge's verdicts: nothing here runs.

#![tactic(auto)]
