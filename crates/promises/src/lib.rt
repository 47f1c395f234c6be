// The promises of README, each by its name: nothing here runs.

#![tactic(auto)]
