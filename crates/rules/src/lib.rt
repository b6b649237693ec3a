// What the rules see and decide: the types that the definitions in specs/ and the code share.
#![tactic(auto)]

ghost use Rattle.std.specs.Prelude.{◌≡◌};
ghost use Rattle.rules.specs.Seen.{view_constant};
ghost use Rattle.rules.specs.declared.SimplifyError.TheVariants.{Refused};

use format::{Bin, Un};
use tree::Refusal;

/// What a rule sees of a simplified child: a constant, e + #a, e - #a, -e, e sign-extended to some bytes, or anything else.
#[derive(Clone, Copy, Debug, PartialEq, Eq)]
pub enum View {
    Constant(u64),
    Plus(u64),
    Minus(u64),
    Negation,
    Extension(u64),
    Other,
}

impl View {
    /// The constant that it is, if it is one.
    pub fn constant(self) -> Option<u64>
        ensures { result ≡ view_constant self }
    {
        match self {
            View::Constant(v) => Some(v),
            _ => None,
        }
    }
}

/// A node near the one that is simplified: a child, or a child's left child.
#[derive(Clone, Copy, Debug, PartialEq, Eq)]
pub enum Near {
    Left,
    Right,
    LeftLeft,
    RightLeft,
}

/// What a rule of two children does with a child e that stands beside a constant: nothing, hand back e, make a constant,
/// or make a constant c and simplify (e op c) or (e's left child op c).
#[derive(Clone, Copy, Debug, PartialEq, Eq)]
pub enum Beside {
    Stay,
    Itself,
    Make(u64),
    Redo(Bin, u64),
    RedoInner(Bin, u64),
}

/// What a rule of two children does where they are equal trees: nothing, make the constant 0, or hand back the left one.
#[derive(Clone, Copy, Debug, PartialEq, Eq)]
pub enum Equals {
    Stay,
    Zero,
    Left,
}

/// What a rule decides: keep the node, or rebuild it with its children swapped; hand back a node near it; make a constant;
/// or make a node, over a new constant or over a node near it, and simplify that.
#[derive(Clone, Copy, Debug, PartialEq, Eq)]
pub enum Act {
    Keep,
    Swap,
    Give(Near),
    Make(u64),
    Redo(Bin, Near, u64),
    RedoUnary(Un, Near),
}

/// Where simplify has ended: the new root, and how many nodes there are.
#[derive(Clone, Copy, Debug, PartialEq, Eq)]
pub struct Simplified {
    pub root: usize,
    pub count: usize,
}

/// Why simplify has not: the check's refusal, or 7.
#[derive(Clone, Copy, Debug, PartialEq, Eq)]
pub enum SimplifyError {
    Refused(Refusal),
    NoRoom,
}

impl From<Refusal> for SimplifyError {
    ghost from_gives = { λ refusal error. error ≡ Refused refusal };

    fn from(refusal: Refusal) -> SimplifyError {
        SimplifyError::Refused(refusal)
    }
}
