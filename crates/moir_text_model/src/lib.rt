// The meaning of a text run on Moir's bench: no code.

#![tactic(auto)]
