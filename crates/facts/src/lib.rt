// Theorems about readings: specs/ says them, proofs/ proves them of the written rules, and there is no code.
#![tactic(auto)]
