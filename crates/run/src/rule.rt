// The rules: a node with a Top among its simplified children becomes Top, and what a rule rebuilds is simplified again.
ghost use Rattle.std.specs.Prelude.{◌≡◌, ◌<◌};
ghost use Rattle.tree.specs.Tree.{is_top};
ghost use Rattle.arena.specs.Ends.{Ends};
ghost use Rattle.run.specs.Ready.{tree_in, OneReadyIn, TwoReadyIn, after_one_in, after_two_in};

use crate::dispatch::visit;
use arena::{Arena, NoRoom};
use format::Node;
use settle::rule::{One, Outcome, Two, one_rule, two_rule};

fn is_top(arena: &Arena<'_>, i: usize) -> bool
    requires { i < arena.now.count }
    ensures { result ≡ is_top (tree_in arena.now i) }
{
    arena.nodes().node(i).is_top()
}

/// The node, whose child has become a. This and `after_two` are two, as `One` and `Two` are. Neither is put in place in `visit`: what a
/// rule needs of the stack is then taken once, and not at each node of a path.
#[inline(never)]
#[cycle(visits)]
pub fn after_one(arena: &mut Arena<'_>, node: One, a: usize) -> Result<usize, NoRoom>
    requires { OneReadyIn arena.old node a }
    ensures { Ends arena.old arena.new (after_one_in arena.old node a) result }
{
    if is_top(arena, a) {
        return arena.push(Node::Top);
    }
    match one_rule(arena, node, a)? {
        Outcome::Done(root) => Ok(root),
        Outcome::Again(root) => visit(arena, root, true),
    }
}

/// The node, whose children have become a and b.
#[inline(never)]
#[cycle(visits)]
pub fn after_two(arena: &mut Arena<'_>, node: Two, a: usize, b: usize) -> Result<usize, NoRoom>
    requires { TwoReadyIn arena.old node a b }
    ensures { Ends arena.old arena.new (after_two_in arena.old node a b) result }
{
    if is_top(arena, a) || is_top(arena, b) {
        return arena.push(Node::Top);
    }
    match two_rule(arena, node, a, b)? {
        Outcome::Done(root) => Ok(root),
        Outcome::Again(root) => visit(arena, root, true),
    }
}
