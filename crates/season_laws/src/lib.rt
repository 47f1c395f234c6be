// Every listing that a text run writes is right, so a season takes it. Only proofs: proofs/Theorems.

#![tactic(auto)]
