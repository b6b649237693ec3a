// Arithmetic on numbers of a width: each function is equal to a P-Code operation's definition at the width's bits.
#![tactic(auto)]

pub mod ops;
pub mod width;
pub mod wrap;
