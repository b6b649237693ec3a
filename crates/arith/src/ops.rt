// The operations that give a number of the operands' width, worked at 64 bits and cut. A number stands beside its width, and the clause
// `Fits` ties them: of an operator's operands some have to fit and some need not, and nodes hold both apart.
ghost use Rattle.std.specs.Prelude.{◌≡◌, ◌*◌};
ghost use Rattle.manual.specs.Operations.{int_add, int_sub, int_mult, int_2comp, int_xor, int_or, int_left, int_right};
ghost use Rattle.arith.specs.Operands.{Fits};

use crate::width::Width;
use crate::wrap::{wrapping_mul, wrapping_neg, wrapping_shl, wrapping_shr};

#[tactic(auto, using(manual::specs::Cuts::int_add_cut))]
pub fn add_at(width: Width, a: u64, b: u64) -> u64
    ensures { result ≡ int_add (8 * width.bytes) a b }
{
    width.cut(a.wrapping_add(b))
}

#[tactic(auto, using(manual::specs::Cuts::int_sub_cut))]
pub fn sub_at(width: Width, a: u64, b: u64) -> u64
    requires { Fits width.bytes b }
    ensures { result ≡ int_sub (8 * width.bytes) a b }
{
    width.cut(a.wrapping_sub(b))
}

#[tactic(auto, using(manual::specs::Cuts::int_mult_cut))]
pub fn mul_at(width: Width, a: u64, b: u64) -> u64
    ensures { result ≡ int_mult (8 * width.bytes) a b }
{
    width.cut(wrapping_mul(a, b))
}

#[tactic(auto, using(manual::specs::Cuts::int_2comp_cut))]
pub fn neg_at(width: Width, a: u64) -> u64
    requires { Fits width.bytes a }
    ensures { result ≡ int_2comp (8 * width.bytes) a }
{
    width.cut(wrapping_neg(a))
}

/// Bit by bit, and so alike at every size: these two ask for no width.
pub fn xor_at(size: u64, a: u64, b: u64) -> u64
    ensures { result ≡ int_xor (8 * size) a b }
{
    a ^ b
}

pub fn or_at(size: u64, a: u64, b: u64) -> u64
    ensures { result ≡ int_or (8 * size) a b }
{
    a | b
}

#[tactic(auto, using(crate::proofs::Shifts::left_within))]
pub fn left_at(width: Width, a: u64, n: u64) -> u64
    ensures { result ≡ int_left (8 * width.bytes) a n }
{
    if n >= width.bits() {
        return 0;
    }
    width.cut(wrapping_shl(a, n))
}

pub fn right_at(width: Width, a: u64, n: u64) -> u64
    requires { Fits width.bytes a }
    ensures { result ≡ int_right (8 * width.bytes) a n }
{
    if n >= width.bits() {
        return 0;
    }
    wrapping_shr(a, n)
}
