// Demand 3: there is only one cut, and the reader reports it. Theorems alone, in proofs/.
#![tactic(auto)]
