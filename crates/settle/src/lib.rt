// The rules on a node whose children are simplified: what they decide, carried out by one writer, short of simplifying again.
#![tactic(auto)]

pub mod rule;
mod writer;
