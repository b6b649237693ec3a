// The rewriting: dispatch simplifies a node's children and calls its rule, and the rules that simplify again call dispatch in their turn.
#![tactic(auto)]

pub mod dispatch;
mod rule;
