// The trust that a host gets of each field is the one that demand 3 states. Theorems alone, in proofs/.
#![tactic(auto)]
