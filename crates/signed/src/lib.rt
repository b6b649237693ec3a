// What looks at the sign. An i64 stays inside this crate.
#![tactic(auto)]

ghost use Rattle.std.specs.Prelude.{◌≡◌, ◌*◌, ◌≤◌};
ghost use Rattle.manual.specs.Operations.{int_sub, int_sright, int_sext, signed, negative64};
ghost use Rattle.arith.specs.Operands.{Fits};
ghost use Rattle.signed.specs.Differences.{difference_of};

use arith::width::Width;
use arith::wrap::wrapping_neg;

// `a` at 64 bits, its sign bit filling the new ones.
#[tactic(auto, using(crate::proofs::Signs::extended_clear, crate::proofs::Signs::extended_set))]
fn sign_extended(width: Width, a: u64) -> u64
    requires { Fits width.bytes a }
    ensures { result ≡ int_sext (8 * width.bytes) 64 a }
{
    if a & width.sign_bit() == 0 {
        a
    } else {
        a | !width.mask()
    }
}

#[tactic(auto, using(crate::proofs::Signs::read))]
fn signed_at(width: Width, a: u64) -> i64
    requires { Fits width.bytes a }
    ensures { result ≡ signed (8 * width.bytes) a }
{
    sign_extended(width, a).cast_signed()
}

/// Past the width the sign fills every bit, and a shift by 63 leaves nothing else.
#[tactic(auto, using(crate::proofs::Signs::shifted))]
pub fn signed_right_at(width: Width, a: u64, n: u64) -> u64
    requires { Fits width.bytes a }
    ensures { result ≡ int_sright (8 * width.bytes) a n }
{
    let shifted = signed_at(width, a) >> n.min(63);
    width.cut(shifted.cast_unsigned())
}

#[tactic(auto, using(manual::specs::Cuts::int_sext_cut))]
pub fn sign_extend_at(from: Width, to: Width, a: u64) -> u64
    requires wider { from.bytes ≤ to.bytes }
    requires fits { Fits from.bytes a }
    ensures { result ≡ int_sext (8 * from.bytes) (8 * to.bytes) a }
{
    to.cut(sign_extended(from, a))
}

/// Whether a constant is negative as an i64. Its own size plays no part: 0xFF of one byte is 255.
pub fn is_negative(n: u64) -> bool
    ensures { result ≡ negative64 n }
{
    n.cast_signed() < 0
}

/// A difference of constants, wrapped at 64 bits and read as an i64: how far it is from 0, and on which side.
#[derive(Clone, Copy, Debug, PartialEq, Eq)]
pub enum Difference {
    Negative(u64),
    NonNegative(u64),
}

pub fn wrapped_difference(a: u64, b: u64) -> Difference
    ensures { result ≡ difference_of (int_sub 64 a b) }
{
    let difference = a.wrapping_sub(b);
    if is_negative(difference) {
        Difference::Negative(wrapping_neg(difference))
    } else {
        Difference::NonNegative(difference)
    }
}
