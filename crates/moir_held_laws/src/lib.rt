// Laws of held lists of Moir's bench that a set-up and commands reached; no code.

#![tactic(auto)]
