// That a text run on a station is made of the station's own commands: nothing here runs.

#![tactic(auto)]
