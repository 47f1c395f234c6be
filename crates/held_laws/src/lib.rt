// Laws of held lists that a set-up and commands reached; no code.

#![tactic(auto)]
