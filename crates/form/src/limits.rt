// The limits of the tree under a root. A shared node counts once for every way that it is reached.
ghost use Rattle.std.specs.Prelude.{◌≡◌, ◌-◌, ◌<◌};
ghost use Rattle.arena.specs.Live.{tree_of};
ghost use Rattle.form.specs.Walks.{left_over};
ghost use Rattle.tree.specs.Form.{limited};
ghost use Rattle.tree.specs.Tree.{nodes as nodes_of};

use arena::Nodes;
use format::Node;
use tree::Refusal;
use words::{MAX_PATH, MAX_UNFOLDED};

// What is left of a budget after the nodes of the tree under i, or 0; 0 too where a path from i has more than `most`
// nodes. Each node of the unfolded tree is visited at most once.
fn left_over(nodes: &Nodes<'_>, i: usize, budget: u64, most: u64) -> u64
    requires { i < nodes.now.count }
    ensures { result ≡ left_over (tree_of nodes.now.count nodes.now.words.now i) budget most }
{
    if budget == 0 || most == 0 {
        return 0;
    }
    match nodes.node(i) {
        Node::Unary(_, _, left) => left_over(nodes, left, budget - 1, most - 1),
        Node::Binary(_, _, left, right) => {
            let rest = left_over(nodes, left, budget - 1, most - 1);
            left_over(nodes, right, rest, most - 1)
        }
        _ => budget - 1,
    }
}

// What is left of a budget after the nodes of the tree under i, or 0, whatever its paths are. A walk of its own: it goes down a path of
// 4,097 nodes, and with a limit on paths beside the budget each node of that path would take half as much stack again.
fn spend(nodes: &Nodes<'_>, i: usize, budget: u64) -> u64
    requires { i < nodes.now.count }
    ensures { result ≡ budget - nodes_of (tree_of nodes.now.count nodes.now.words.now i) }
{
    if budget == 0 {
        return 0;
    }
    match nodes.node(i) {
        Node::Unary(_, _, left) => spend(nodes, left, budget - 1),
        Node::Binary(_, _, left, right) => {
            let rest = spend(nodes, left, budget - 1);
            spend(nodes, right, rest)
        }
        _ => budget - 1,
    }
}

/// Both limits in one walk. Where it has nothing left, a second one, of the nodes alone, tells which limit it was: the nodes come
/// first.
pub fn limited(nodes: &Nodes<'_>, root: usize) -> Result<(), Refusal>
    requires { root < nodes.now.count }
    ensures { result ≡ limited (tree_of nodes.now.count nodes.now.words.now root) }
{
    if 0 < left_over(nodes, root, MAX_UNFOLDED + 1, MAX_PATH) {
        return Ok(());
    }
    if spend(nodes, root, MAX_UNFOLDED + 1) == 0 {
        Err(Refusal::TooManyNodes)
    } else {
        Err(Refusal::PathTooLong)
    }
}
