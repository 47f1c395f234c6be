// Laws of tests and of lists that the loops of several crates cite: nothing here runs.

#![tactic(auto)]
