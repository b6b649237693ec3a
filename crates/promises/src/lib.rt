// What the calls promise, as theorems over their definitions: see specs/Promises.antt, and
// proofs/Promises.antt for their theorems. It has no code.
#![tactic(auto)]
