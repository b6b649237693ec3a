// Dispatch: a node's children are simplified, left before right, then its rule decides.
ghost use Rattle.std.specs.Prelude.{◌<◌};
ghost use Rattle.arena.specs.Ends.{Ends};
ghost use Rattle.run.specs.Ready.{tree_in, simplified_in, OneStands, TwoStands, Ready, Prepared};

use crate::rule::{after_one, after_two};
use arena::{Arena, NoRoom};
use format::Node;
use settle::rule::{One, Two};

// Simplifies a child. One that is `ready` is simplified already, and a leaf is itself: neither is worth a visit.
#[cycle(visits)]
fn child(arena: &mut Arena<'_>, j: usize, ready: bool) -> Result<usize, NoRoom>
    requires { (j < arena.old.count) × Ready ready (tree_in arena.old j) }
    ensures { Ends arena.old arena.new (simplified_in arena.old j) result }
{
    if ready || arena.nodes().is_leaf(j) {
        return Ok(j);
    }
    dispatch(arena, j)
}

#[cycle(visits)]
fn visit_one(arena: &mut Arena<'_>, node: One, ready: bool) -> Result<usize, NoRoom>
    requires { OneStands arena.old node × Prepared ready (tree_in arena.old node.index) }
    ensures { Ends arena.old arena.new (simplified_in arena.old node.index) result }
{
    let a = child(arena, node.left, ready)?;
    after_one(arena, node, a)
}

// The left child first, then the right one.
#[cycle(visits)]
fn visit_two(arena: &mut Arena<'_>, node: Two, ready: bool) -> Result<usize, NoRoom>
    requires { TwoStands arena.old node × Prepared ready (tree_in arena.old node.index) }
    ensures { Ends arena.old arena.new (simplified_in arena.old node.index) result }
{
    let a = child(arena, node.left, ready)?;
    let b = child(arena, node.right, ready)?;
    after_two(arena, node, a, b)
}

/// Visits node i: a leaf is itself. `ready` tells that a rule has rebuilt the node over simplified children: to visit them
/// would append nothing and return their indices. A flag, and no type: the node is the same, and what differs is what is known of it.
#[cycle(visits)]
pub fn visit(arena: &mut Arena<'_>, i: usize, ready: bool) -> Result<usize, NoRoom>
    requires { (i < arena.old.count) × Prepared ready (tree_in arena.old i) }
    ensures { Ends arena.old arena.new (simplified_in arena.old i) result }
{
    match arena.nodes().node(i) {
        Node::Unary(op, size, left) => {
            let node = One {
                index: i,
                op,
                size,
                left,
            };
            visit_one(arena, node, ready)
        }
        Node::Binary(op, size, left, right) => {
            let node = Two {
                index: i,
                op,
                size,
                left,
                right,
            };
            visit_two(arena, node, ready)
        }
        _ => Ok(i),
    }
}

/// Simplifies node i.
#[cycle(visits)]
pub fn dispatch(arena: &mut Arena<'_>, i: usize) -> Result<usize, NoRoom>
    requires { i < arena.old.count }
    ensures { Ends arena.old arena.new (simplified_in arena.old i) result }
{
    visit(arena, i, false)
}
