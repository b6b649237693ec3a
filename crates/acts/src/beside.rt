// What a rule of two children says beside folding: whether it swaps, what it does beside a constant and with equal trees.
// IntCarry, IntSCarry and IntSBorrow have no file of their own: two constants fold (decide.rt), and equal trees under IntSBorrow give 0
// (`equals`). Beside a constant (`beside`), they stay.
ghost use Rattle.std.specs.Prelude.{◌≡◌};
ghost use Rattle.manual.specs.Operations.{int_sub};
ghost use Rattle.rules.specs.Rules.{rule_of, moved as moved_by};

use crate::add::add_beside;
use crate::mul::mul_beside;
use crate::or::or_beside;
use crate::sub::sub_beside;
use crate::xor_shift::xor_shift_beside;
use arith::width::Width;
use format::Bin;
use rules::{Beside, Equals, View};
use signed::{Difference, wrapped_difference};

/// e's left child moved by the difference a - n, wrapped and read as an i64: a negative one goes the other way by its amount.
pub fn moved(a: u64, n: u64, negative: Bin, otherwise: Bin) -> Beside
    ensures { result ≡ moved_by (int_sub 64 a n) negative otherwise }
{
    match wrapped_difference(a, n) {
        Difference::Negative(amount) => Beside::RedoInner(negative, amount),
        Difference::NonNegative(amount) => Beside::RedoInner(otherwise, amount),
    }
}

/// Each kind's own rule. A match, and no table of functions: the kinds are closed, and their rules take different things.
pub fn beside(op: Bin, width: Width, e: View, n: u64) -> Beside
    ensures { result ≡ (rule_of op).beside width.bytes e n }
{
    match op {
        Bin::Add => add_beside(e, n),
        Bin::Sub => sub_beside(e, n),
        Bin::Mul => mul_beside(n),
        Bin::Or => or_beside(width, n),
        Bin::Xor | Bin::IntLeftShift | Bin::IntRightShift | Bin::IntSignedRightShift =>
            xor_shift_beside(n),
        Bin::IntCarry | Bin::IntSCarry | Bin::IntSBorrow => Beside::Stay,
    }
}

pub fn swaps(op: Bin) -> bool
    ensures { result ≡ (rule_of op).swaps }
{
    matches!(op, Bin::Add | Bin::Mul | Bin::Xor | Bin::Or)
}

pub fn equals(op: Bin) -> Equals
    ensures { result ≡ (rule_of op).equal }
{
    match op {
        // (e - e) -> #0, (e ^ e) -> #0, sborrow(e, e) -> #0
        Bin::Sub | Bin::Xor | Bin::IntSBorrow => Equals::Zero,
        // (e | e) -> e
        Bin::Or => Equals::Left,
        _ => Equals::Stay,
    }
}
