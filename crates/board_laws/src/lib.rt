// What a listed run of a board's file has to do with the run on a station: nothing here runs.

#![tactic(auto)]
