// The flags of sums and differences: 1 or 0.
#![tactic(auto)]

ghost use Rattle.std.specs.Prelude.{◌≡◌, ◌*◌};
ghost use Rattle.manual.specs.Operations.{int_carry, int_scarry, int_sborrow};
ghost use Rattle.arith.specs.Operands.{Fits};

use arith::ops::{add_at, sub_at};
use arith::width::Width;

/// The sum takes two words at size 8. The high one is 1 exactly if the low one wrapped, below `a`.
#[tactic(auto, unfolding(manual::specs::Operations::int_carry))]
pub fn carry_at(width: Width, a: u64, b: u64) -> u64
    requires left { Fits width.bytes a }
    requires right { Fits width.bytes b }
    ensures { result ≡ int_carry (8 * width.bytes) a b }
{
    let low = a.wrapping_add(b);
    u64::from(low < a || low > width.mask())
}

/// The signed sum does not fit if its sign differs from the sign of both operands.
#[tactic(auto, using(crate::proofs::Overflow::signs_of_sum))]
pub fn scarry_at(width: Width, a: u64, b: u64) -> u64
    requires left { Fits width.bytes a }
    requires right { Fits width.bytes b }
    ensures { result ≡ int_scarry (8 * width.bytes) a b }
{
    let sum = add_at(width, a, b);
    ((a ^ sum) & (b ^ sum)) >> (width.bits() - 1)
}

/// The signed difference does not fit if the operands' signs differ and its own differs from that of `a`.
#[tactic(auto, using(crate::proofs::Overflow::signs_of_difference))]
pub fn sborrow_at(width: Width, a: u64, b: u64) -> u64
    requires left { Fits width.bytes a }
    requires right { Fits width.bytes b }
    ensures { result ≡ int_sborrow (8 * width.bytes) a b }
{
    let difference = sub_at(width, a, b);
    ((a ^ b) & (a ^ difference)) >> (width.bits() - 1)
}
