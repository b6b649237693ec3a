// Between a node and its two words.
ghost use Rattle.std.specs.Prelude.{◌≡◌};
ghost use Rattle.format.specs.Nodes.{node_of, shaped, header_of, payload_of, Narrow};

use crate::{fields, kinds};
use format::{Node, Shape};

// The node of a shape with the fields of its words, which come one by one, here and below, as in the definitions.
fn shaped_node(shape: Shape, word: u64, payload: u64) -> Node
    ensures { result ≡ shaped shape word payload }
{
    let size = fields::size_of(word);
    let left = fields::left_of(word);
    match shape {
        Shape::Top => Node::Top,
        Shape::Entry => Node::Entry(size, fields::space_of(word), payload),
        Shape::Const => Node::Const(size, payload),
        Shape::Bind => Node::Bind(size, payload),
        Shape::Unary(op) => Node::Unary(op, size, left),
        Shape::Binary(op) => Node::Binary(op, size, left, fields::right_of(word)),
    }
}

/// The node that two words stand for. A number that is no kind's reads as Top; the check refuses it.
#[tactic(auto, unfolding(format::specs::Nodes::node_of))]
pub fn node_of(word: u64, payload: u64) -> Node
    ensures { result ≡ node_of word payload }
{
    let shape = kinds::shape_of(fields::kind_of(word));
    shaped_node(shape, word, payload)
}

/// A node's first word.
pub fn header_of(node: Node) -> u64
    requires { Narrow node }
    ensures { result ≡ header_of node }
{
    match node {
        Node::Top => 0,
        Node::Entry(size, space, _) => fields::pack(Shape::Entry.into(), size, 0, 0, space),
        Node::Const(size, _) => fields::pack(Shape::Const.into(), size, 0, 0, 0),
        Node::Bind(size, _) => fields::pack(Shape::Bind.into(), size, 0, 0, 0),
        Node::Unary(op, size, left) => fields::pack(op.into(), size, left as u64, 0, 0),
        Node::Binary(op, size, left, right) => {
            fields::pack(op.into(), size, left as u64, right as u64, 0)
        }
    }
}

/// A node's second word.
pub fn payload_of(node: Node) -> u64
    ensures { result ≡ payload_of node }
{
    match node {
        Node::Entry(_, _, payload) | Node::Const(_, payload) | Node::Bind(_, payload) => payload,
        Node::Top | Node::Unary(..) | Node::Binary(..) => 0,
    }
}
