// Theorems only: what the trees of the reader mean. See specs/ and proofs/.
#![tactic(auto)]
