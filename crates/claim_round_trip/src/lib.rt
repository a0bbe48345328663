// What was written reads back, and what was read is written again. Theorems alone, in proofs/.
#![tactic(auto)]
