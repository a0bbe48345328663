// The journal survives a loss of power after any store. Theorems alone, in proofs/.
#![tactic(auto)]
