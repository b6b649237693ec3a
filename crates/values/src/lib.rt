// The value of an operator on numbers: what folding two constants makes, and what evaluation computes. And the constant that
// holds a number.
#![tactic(auto)]

ghost use Rattle.std.specs.Prelude.{◌≡◌};
ghost use Rattle.arith.specs.Operands.{Extension};
ghost use Rattle.tree.specs.Meaning.{un_value, bin_value};
ghost use Rattle.tree.specs.Form.{bin_sizing};
ghost use Rattle.rules.specs.Run.{make_const};
ghost use Rattle.values.specs.Operands.{Fitting};

use arith::ops;
use arith::width::Width;
use format::{Bin, Node, Un};

/// x is a number of `child` bytes. Operators of one operand and of two are apart, as in the definitions.
#[tactic(auto, using(std::proofs::lemmas::Nat::pow_below))]
pub fn un_value(op: Un, size: u64, child: u64, x: u64) -> u64
    requires { Extension child size x }
    ensures { result ≡ un_value op size child x }
{
    let width = Width { bytes: size };
    match op {
        Un::SignExtend => signed::sign_extend_at(Width { bytes: child }, width, x),
        Un::Int2Comp => ops::neg_at(width, x),
    }
}

/// x is a number of `child` bytes. Each arm makes its width, since a flag is of its operands, of the children's size, and of its own
/// size nothing is asked.
#[tactic(auto, unfolding(format::specs::Kinds::row_of))]
pub fn bin_value(op: Bin, size: u64, child: u64, x: u64, y: u64) -> u64
    requires { Fitting (bin_sizing op) size child x y }
    ensures { result ≡ bin_value op size child x y }
{
    match op {
        Bin::Add => ops::add_at(Width { bytes: size }, x, y),
        Bin::Sub => ops::sub_at(Width { bytes: size }, x, y),
        Bin::Mul => ops::mul_at(Width { bytes: size }, x, y),
        Bin::Xor => ops::xor_at(size, x, y),
        Bin::Or => ops::or_at(size, x, y),
        Bin::IntLeftShift => ops::left_at(Width { bytes: size }, x, y),
        Bin::IntRightShift => ops::right_at(Width { bytes: size }, x, y),
        Bin::IntSignedRightShift => signed::signed_right_at(Width { bytes: size }, x, y),
        Bin::IntCarry => flags::carry_at(Width { bytes: child }, x, y),
        Bin::IntSCarry => flags::scarry_at(Width { bytes: child }, x, y),
        Bin::IntSBorrow => flags::sborrow_at(Width { bytes: child }, x, y),
    }
}

/// What a rule makes of a 64-bit number: its low bits, as many as the size has.
pub fn make_const(width: Width, v: u64) -> Node
    ensures { result ≡ make_const width.bytes v }
{
    Node::Const(width.bytes, width.cut(v))
}
