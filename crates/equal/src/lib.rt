// Whether two trees of an arena are equal, wherever they lie.
#![tactic(auto)]

ghost use Rattle.std.specs.Prelude.{◌≡◌, ◌<◌};
ghost use Rattle.tree.specs.Tree.{same as same_tree};
ghost use Rattle.arena.specs.Live.{tree_of};
ghost use Rattle.equal.specs.Alike.{label_of, alike_at};

use arena::Nodes;
use format::Node;
use words::fields;

// A header without its children: kind, size and space, compared as one word.
fn label(word: u64) -> u64
    ensures { result ≡ label_of word }
{
    let kind = fields::kind_of(word) as u64;
    fields::pack(kind, fields::size_of(word), 0, 0, fields::space_of(word))
}

// Whether two nodes agree in all but their children, whose indices may differ between equal trees.
fn alike(nodes: &Nodes<'_>, i: usize, j: usize) -> bool
    requires { (i < nodes.now.count) × (j < nodes.now.count) }
    ensures { result ≡ alike_at nodes.now.words.now i j }
{
    label(nodes.header(i)) == label(nodes.header(j)) && nodes.payload(i) == nodes.payload(j)
}

/// Whether the trees under nodes i and j are equal. Nodes come by reference, so that a call in it hands on one address, and the last
/// one of a node is a jump.
#[tactic(auto, using(crate::proofs::Laws::same_at))]
pub fn same(nodes: &Nodes<'_>, i: usize, j: usize) -> bool
    requires { (i < nodes.now.count) × (j < nodes.now.count) }
    ensures { let tree = tree_of nodes.now.count nodes.now.words.now in result ≡ same_tree (tree i) (tree j) }
{
    if !alike(nodes, i, j) {
        return false;
    }
    let other = nodes.header(j);
    match nodes.node(i) {
        Node::Unary(_, _, left) => same(nodes, left, fields::left_of(other)),
        Node::Binary(_, _, left, right) => {
            same(nodes, left, fields::left_of(other)) && same(nodes, right, fields::right_of(other))
        }
        _ => true,
    }
}
