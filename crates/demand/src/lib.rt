// The customer's third demand, proved of the machine's rules and the pass: specs/ and proofs/ hold it, and there is no code.
#![tactic(auto)]
