// What a node's two words stand for: the types that the definitions in specs/ and the code share.
#![tactic(auto)]

ghost use Rattle.std.specs.Prelude.{◌≡◌};
ghost use Rattle.format.specs.Kinds.{un_number, bin_number};
ghost use Rattle.format.specs.KindRules.{number_of};
ghost use Rattle.format.specs.Nodes.{node_size, node_is_top, node_left_child};

/// The operators of one child.
#[derive(Clone, Copy, Debug, PartialEq, Eq)]
pub enum Un {
    SignExtend,
    Int2Comp,
}

/// The operators of two children.
#[derive(Clone, Copy, Debug, PartialEq, Eq)]
pub enum Bin {
    Add,
    Sub,
    Mul,
    Xor,
    Or,
    IntLeftShift,
    IntRightShift,
    IntSignedRightShift,
    IntCarry,
    IntSCarry,
    IntSBorrow,
}

/// What a kind is, apart from its number.
#[derive(Clone, Copy, Debug, PartialEq, Eq)]
pub enum Shape {
    Top,
    Entry,
    Const,
    Bind,
    Unary(Un),
    Binary(Bin),
}

/// The rule for a node's size and its children's.
#[derive(Clone, Copy, Debug, PartialEq, Eq)]
pub enum Sizing {
    Unsized,
    Input,
    Constant,
    Same,
    Shift,
    Extension,
    Flag,
}

/// A kind's line of the table: how many children it has, whether it uses the space and the payload, and its rule of sizes.
#[derive(Clone, Copy, Debug, PartialEq, Eq)]
pub struct Row {
    pub arity: u8,
    pub space: bool,
    pub payload: bool,
    pub sizing: Sizing,
}

/// A node with its fields: sizes in bytes, and children as indices.
#[derive(Clone, Copy, Debug, PartialEq, Eq)]
pub enum Node {
    Top,
    Entry(u64, u64, u64),
    Const(u64, u64),
    Bind(u64, u64),
    Unary(Un, u64, usize),
    Binary(Bin, u64, usize, usize),
}

/// An operator's number, which is its kind's.
impl From<Un> for u64 {
    ghost from_gives = { λ op n. n ≡ un_number op };

    fn from(op: Un) -> u64 {
        match op {
            Un::SignExtend => 12,
            Un::Int2Comp => 16,
        }
    }
}

/// An operator's number, which is its kind's.
impl From<Bin> for u64 {
    ghost from_gives = { λ op n. n ≡ bin_number op };

    fn from(op: Bin) -> u64 {
        match op {
            Bin::Add => 4,
            Bin::Sub => 5,
            Bin::Mul => 6,
            Bin::Xor => 7,
            Bin::Or => 8,
            Bin::IntLeftShift => 9,
            Bin::IntRightShift => 10,
            Bin::IntSignedRightShift => 11,
            Bin::IntCarry => 13,
            Bin::IntSCarry => 14,
            Bin::IntSBorrow => 15,
        }
    }
}

/// A kind's number.
impl From<Shape> for u64 {
    ghost from_gives = { λ shape n. n ≡ number_of shape };

    fn from(shape: Shape) -> u64 {
        match shape {
            Shape::Top => 0,
            Shape::Entry => 1,
            Shape::Const => 2,
            Shape::Bind => 3,
            Shape::Unary(op) => op.into(),
            Shape::Binary(op) => op.into(),
        }
    }
}

impl Node {
    /// In bytes. A Top has no size, and answers 0.
    pub fn size(self) -> u64
        ensures { result ≡ node_size self }
    {
        match self {
            Node::Top => 0,
            Node::Entry(size, ..)
            | Node::Const(size, _)
            | Node::Bind(size, _)
            | Node::Unary(_, size, _)
            | Node::Binary(_, size, ..) => size,
        }
    }

    pub fn is_top(self) -> bool
        ensures { result ≡ node_is_top self }
    {
        matches!(self, Node::Top)
    }

    /// The one child of a unary node, or the first of a binary one.
    pub fn left_child(self) -> Option<usize>
        ensures { result ≡ node_left_child self }
    {
        match self {
            Node::Unary(_, _, left) | Node::Binary(_, _, left, _) => Some(left),
            _ => None,
        }
    }
}
