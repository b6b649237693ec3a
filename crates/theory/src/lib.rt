// What follows from the rules and the run: see specs/ and proofs/. It has no code.
#![tactic(auto)]
