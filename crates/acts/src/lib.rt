// What the rules decide, in code, a file a kind, and one for Xor and the shifts; the flags' kinds are told in beside.rt. It reads, and
// writes nothing.
#![tactic(auto)]

mod add;
mod beside;
pub mod decide;
mod int2comp;
mod mul;
mod or;
mod sign_extend;
mod sub;
pub mod view;
mod xor_shift;
