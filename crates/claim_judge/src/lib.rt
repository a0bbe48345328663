// What the judge says of what the survey and the reader cut. Theorems alone, in proofs/.
#![tactic(auto)]
