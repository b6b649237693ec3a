// A node's two words in code: the fields of its header, the table of kinds, and the node that the words stand for.
#![tactic(auto)]

pub mod fields;
pub mod kinds;
pub mod nodes;

/// How many words a node takes.
pub const NODE_WORDS: usize = 2;
/// How many nodes an arena holds at most.
pub const MAX_NODES: usize = 4096;
/// How many nodes a tree may have, counted once for every way they are reached.
pub const MAX_UNFOLDED: u64 = 4096;
/// How many nodes a path from the root may have.
pub const MAX_PATH: u64 = 128;
/// How many kinds there are.
pub const KIND_COUNT: usize = 17;
