// The three calls: check, simplify and evaluate, over any words, count and root.
#![tactic(auto)]

pub mod calls;
pub mod exports;
