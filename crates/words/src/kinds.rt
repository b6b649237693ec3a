// The kinds by number: the one table that drives the check of form and sizes, and the shapes that nodes are read by.
ghost use Rattle.std.specs.Prelude.{◌≡◌, ◌<◌, ◌≤◌};
ghost use Rattle.format.specs.KindRules.{rows};
ghost use Rattle.format.specs.Kinds.{shape_of};

use crate::KIND_COUNT;
use format::{Bin, Row, Shape, Sizing, Un};

// No child, and no field in use: what other rows differ from.
const TOP: Row = Row {
    arity: 0,
    space: false,
    payload: false,
    sizing: Sizing::Unsized,
};

const ENTRY: Row = Row {
    space: true,
    payload: true,
    sizing: Sizing::Input,
    ..TOP
};

const CONST: Row = Row {
    payload: true,
    sizing: Sizing::Constant,
    ..TOP
};

const BIND: Row = Row {
    payload: true,
    sizing: Sizing::Input,
    ..TOP
};

// Rows that kinds of one child, or of two, share.
const ONE_SAME: Row = Row {
    arity: 1,
    sizing: Sizing::Same,
    ..TOP
};

const ONE_EXTENSION: Row = Row {
    sizing: Sizing::Extension,
    ..ONE_SAME
};

const TWO_SAME: Row = Row {
    arity: 2,
    ..ONE_SAME
};

const TWO_SHIFT: Row = Row {
    sizing: Sizing::Shift,
    ..TWO_SAME
};

const TWO_FLAG: Row = Row {
    sizing: Sizing::Flag,
    ..TWO_SAME
};

// A line for each kind, from number 0: the words that C hands in have numbers, and a scan reads the table by them.
const KINDS: [Row; KIND_COUNT] = [
    TOP,
    ENTRY,
    CONST,
    BIND,
    TWO_SAME, // Add
    TWO_SAME, // Sub
    TWO_SAME, // Mul
    TWO_SAME, // Xor
    TWO_SAME, // Or
    TWO_SHIFT, // IntLeftShift
    TWO_SHIFT, // IntRightShift
    TWO_SHIFT, // IntSignedRightShift
    ONE_EXTENSION, // SignExtend
    TWO_FLAG, // IntCarry
    TWO_FLAG, // IntSCarry
    TWO_FLAG, // IntSBorrow
    ONE_SAME, // Int2Comp
];

/// The whole table: one copy of it serves all the nodes of a scan.
pub fn table() -> [Row; KIND_COUNT]
    ensures { result ≡ rows }
{
    KINDS
}

// The operator of a kind of two children, whose number is one from 4 to 15 other than 12. Two functions, this and `shape_of`, since
// one match has a jump for each of seventeen kinds, which is hard to predict.
#[tactic(auto, unfolding(format::specs::Kinds::shape_of))]
fn bin_of(kind: usize) -> Bin
    requires { (4 ≤ kind) × (kind < 16) × (kind ≡ 12 → ⊥) }
    ensures { shape_of kind ≡ Shape.Binary result }
{
    match kind {
        5 => Bin::Sub,
        6 => Bin::Mul,
        7 => Bin::Xor,
        8 => Bin::Or,
        9 => Bin::IntLeftShift,
        10 => Bin::IntRightShift,
        11 => Bin::IntSignedRightShift,
        13 => Bin::IntCarry,
        14 => Bin::IntSCarry,
        15 => Bin::IntSBorrow,
        _ => Bin::Add,
    }
}

/// The shape of a header's number. A number that is no kind's has Top's shape, as the definition says (so this is no `TryFrom`).
#[tactic(auto, unfolding(format::specs::Kinds::shape_of))]
pub fn shape_of(kind: usize) -> Shape
    ensures { result ≡ shape_of kind }
{
    match kind {
        0 => Shape::Top,
        1 => Shape::Entry,
        2 => Shape::Const,
        3 => Shape::Bind,
        12 => Shape::Unary(Un::SignExtend),
        16 => Shape::Unary(Un::Int2Comp),
        4..=15 => Shape::Binary(bin_of(kind)),
        _ => Shape::Top,
    }
}
