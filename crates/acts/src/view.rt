// What a rule sees of its children.
ghost use Rattle.std.specs.Prelude.{◌≡◌, ◌<◌};
ghost use Rattle.rules.specs.Rules.{constant_of, view, bin_view, un_view};
ghost use Rattle.arena.specs.Live.{tree_of};

use arena::Nodes;
use format::{Bin, Node, Un};
use rules::View;

// The constant that node i is, if it is one: by its kind, before the rest of it is read.
#[tactic(auto, using(crate::specs::Views::constant_at))]
fn constant_at(nodes: Nodes<'_>, i: usize) -> Option<u64>
    requires { i < nodes.count }
    ensures { result ≡ constant_of (tree_of nodes.entry.count nodes.entry.words.now i) }
{
    if nodes.is_const(i) {
        Some(nodes.payload(i))
    } else {
        None
    }
}

// What an operator shows beside the constant that its right child is, if it is one.
fn bin_view(op: Bin, right: Option<u64>) -> View
    ensures { result ≡ bin_view op right }
{
    match (op, right) {
        (Bin::Add, Some(a)) => View::Plus(a),
        (Bin::Sub, Some(a)) => View::Minus(a),
        _ => View::Other,
    }
}

fn un_view(op: Un, size: u64) -> View
    ensures { result ≡ un_view op size }
{
    match op {
        Un::SignExtend => View::Extension(size),
        Un::Int2Comp => View::Negation,
    }
}

#[tactic(auto, using(crate::specs::Views::view_of_node))]
pub fn view_at(nodes: Nodes<'_>, i: usize) -> View
    requires { i < nodes.count }
    ensures { result ≡ view (tree_of nodes.entry.count nodes.entry.words.now i) }
{
    match nodes.node(i) {
        Node::Const(_, value) => View::Constant(value),
        Node::Unary(op, size, _) => un_view(op, size),
        Node::Binary(op, _, _, right) => bin_view(op, constant_at(nodes, right)),
        _ => View::Other,
    }
}
