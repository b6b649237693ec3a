// The operations of the P-Code manual, as definitions and laws: see specs/ and proofs/. It has no code.
#![tactic(auto)]
