// What to do with a node whose children are simplified and not Top.
ghost use Rattle.std.specs.Prelude.{◌≡◌, cond, ◌<◌, if◌then◌else◌};
ghost use Rattle.tree.specs.Tree.{same};
ghost use Rattle.rules.specs.Rules.{rule_of, on_left, on_right, on_equal, bin_act, un_act};
ghost use Rattle.arena.specs.Live.{tree_of};
ghost use Rattle.acts.specs.Operated.{UnaryOver, BinaryOver};

use crate::beside::{beside, equals, swaps};
use crate::int2comp::neg_act;
use crate::sign_extend::sext_act;
use crate::view::view_at;
use arena::Nodes;
use arith::width::Width;
use format::{Bin, Un};
use rules::{Act, Beside, Equals, Near};

// What is decided of e: the left child, or the right one, which is then swapped to the left if nothing else is done. Which side it is
// matters here alone, so a flag says it.
fn beside_act(beside: Beside, right: bool) -> Act
    ensures { result ≡ (if right then on_right beside else on_left beside) }
{
    let (stay, e, inner) = if right {
        (Act::Swap, Near::Right, Near::RightLeft)
    } else {
        (Act::Keep, Near::Left, Near::LeftLeft)
    };
    match beside {
        Beside::Stay => stay,
        Beside::Itself => Act::Give(e),
        Beside::Make(v) => Act::Make(v),
        Beside::Redo(op, v) => Act::Redo(op, e, v),
        Beside::RedoInner(op, v) => Act::Redo(op, inner, v),
    }
}

// Trees are compared only for a kind that looks for equal ones.
fn equal_act(nodes: Nodes<'_>, op: Bin, a: usize, b: usize) -> Act
    requires { (a < nodes.count) × (b < nodes.count) }
    ensures { result ≡ cond (same (tree_of nodes.entry.count nodes.entry.words.now a) (tree_of nodes.entry.count nodes.entry.words.now b))
        (on_equal (rule_of op).equal) Act.Keep }
{
    let act = match equals(op) {
        Equals::Stay => return Act::Keep,
        Equals::Zero => Act::Make(0),
        Equals::Left => Act::Give(Near::Left),
    };
    if equal::same(&nodes, a, b) {
        act
    } else {
        Act::Keep
    }
}

/// The decision for two children, and `un_act` that for one: two functions, as there are two definitions.
#[tactic(auto, using(crate::specs::Views::view_constant_lem, arena::specs::LiveLaws::size_at, crate::specs::Decided::over_size))]
pub fn bin_act(nodes: Nodes<'_>, op: Bin, size: u64, a: usize, b: usize) -> Act
    requires { BinaryOver nodes.words.now nodes.count op size a b }
    ensures { result ≡ bin_act op size (tree_of nodes.entry.count nodes.entry.words.now a)
        (tree_of nodes.entry.count nodes.entry.words.now b) }
{
    let width = Width { bytes: size };
    let left = view_at(nodes, a);
    let right = view_at(nodes, b);
    match (left.constant(), right.constant()) {
        (None, None) => equal_act(nodes, op, a, b),
        (Some(m), None) if swaps(op) => beside_act(beside(op, width, right, m), true),
        (Some(_), None) => Act::Keep,
        (None, Some(n)) => beside_act(beside(op, width, left, n), false),
        (Some(m), Some(n)) => Act::Make(values::bin_value(op, size, nodes.node(a).size(), m, n)),
    }
}

#[tactic(auto, using(arena::specs::LiveLaws::size_at, crate::specs::Decided::sext_fits, crate::specs::Decided::neg_fits))]
pub fn un_act(nodes: Nodes<'_>, op: Un, size: u64, a: usize) -> Act
    requires { UnaryOver nodes.words.now nodes.count op size a }
    ensures { result ≡ un_act op size (tree_of nodes.entry.count nodes.entry.words.now a) }
{
    let view = view_at(nodes, a);
    match op {
        Un::SignExtend => sext_act(size, nodes.node(a).size(), view),
        Un::Int2Comp => neg_act(size, view),
    }
}
