// Reading the nodes of a lent slice, and appending to them.
#![tactic(auto)]

ghost use Rattle.std.specs.Prelude.{◌≡◌, ◌+◌, ◌*◌, ◌<◌, length};
ghost use Rattle.format.specs.Limits.{node_words, capacity as capacity_of, header_at, payload_at};
ghost use Rattle.format.specs.Nodes.{node_is_const};
ghost use Rattle.tree.specs.Arena.{node_at, nodes_of};
ghost use Rattle.arena.specs.Live.{Live};
ghost use Rattle.arena.specs.LiveProp.{Live-prop};

use format::{Node, Shape};
use rules::Near;
use words::{MAX_NODES, NODE_WORDS};

// How many kinds have no children: the first ones, Top, Entry, Const and Bind. A number: a match on the shape was tried, and is a table
// and branches where this is a compare.
const LEAF_KINDS: usize = 4;

/// How many nodes a slice of `len` words holds.
pub fn capacity(len: usize) -> usize
    ensures { result ≡ capacity_of len }
{
    (len / NODE_WORDS).min(MAX_NODES)
}

/// Node i's first word, its header. Whether it is a node's at all may not have been checked: so the words are a slice here, with a
/// clause that the node lies in it, and no `Nodes`. Each of the two words has a function, a line under its name.
pub fn header_at(words: &[u64], i: usize) -> u64
    requires { node_words * i + 1 < length words.now }
    ensures { result ≡ header_at words.now i }
{
    words[NODE_WORDS * i]
}

/// Node i's second word.
pub fn payload_at(words: &[u64], i: usize) -> u64
    requires { node_words * i + 1 < length words.now }
    ensures { result ≡ payload_at words.now i }
{
    words[NODE_WORDS * i + 1]
}

/// The node that those two words stand for.
pub fn node_at(words: &[u64], i: usize) -> Node
    requires { node_words * i + 1 < length words.now }
    ensures { result ≡ node_at words.now i }
{
    words::nodes::node_of(header_at(words, i), payload_at(words, i))
}

/// Whether node i is a constant, by its kind alone.
#[tactic(auto, unfolding(format::specs::Nodes::node_of))]
pub fn is_const(words: &[u64], i: usize) -> bool
    requires { node_words * i + 1 < length words.now }
    ensures { result ≡ node_is_const (node_at words.now i) }
{
    let kind = words::fields::kind_of(header_at(words, i));
    matches!(words::kinds::shape_of(kind), Shape::Const)
}

/// A slice whose first `count` nodes have passed the check, or have been appended to such, for reading. Trees are indices into it,
/// and no boxes: C hands the slice in, and nothing is allocated.
#[derive(Clone, Copy)]
pub struct Nodes<'a> {
    pub words: &'a [u64],
    pub count: usize,
    pub ghost live: { Live words.now count } by { Live-prop words.now count },
}

impl Nodes<'_> {
    ghost use Rattle.rules.specs.Run.{near as near_of};
    ghost use Rattle.format.specs.Nodes.{node_is_leaf};

    pub fn header(self, i: usize) -> u64
        requires { i < self.count }
        ensures { result ≡ header_at self.entry.words.now i }
    {
        header_at(self.words, i)
    }

    pub fn payload(self, i: usize) -> u64
        requires { i < self.count }
        ensures { result ≡ payload_at self.entry.words.now i }
    {
        payload_at(self.words, i)
    }

    pub fn node(self, i: usize) -> Node
        requires { i < self.count }
        ensures { result ≡ node_at self.entry.words.now i }
    {
        node_at(self.words, i)
    }

    pub fn is_const(self, i: usize) -> bool
        requires { i < self.count }
        ensures { result ≡ node_is_const (node_at self.entry.words.now i) }
    {
        is_const(self.words, i)
    }

    /// Whether node i has no children, by its kind alone.
    #[tactic(auto, using(crate::specs::LiveLaws::leaf_at))]
    pub fn is_leaf(self, i: usize) -> bool
        requires { i < self.count }
        ensures { result ≡ node_is_leaf (node_at self.entry.words.now i) }
    {
        words::fields::kind_of(self.header(i)) < LEAF_KINDS
    }

    /// The node that a rule has named, near a node whose simplified children are a and b. No rule asks for a leaf's child.
    #[tactic(auto, using(crate::specs::LiveLaws::left_child_at))]
    pub fn near(self, which: Near, a: usize, b: usize) -> usize
        requires { (a < self.count) × (b < self.count) }
        ensures { (result ≡ near_of which (nodes_of self.entry.count self.entry.words.now) a b) × (result < self.entry.count) }
    {
        match which {
            Near::Left => a,
            Near::Right => b,
            Near::LeftLeft => self.node(a).left_child().unwrap_or(a),
            Near::RightLeft => self.node(b).left_child().unwrap_or(b),
        }
    }
}

/// There is no room for another node.
#[derive(Clone, Copy, Debug, PartialEq, Eq)]
pub struct NoRoom;

/// A slice whose first `count` nodes have passed the check, or have been appended to such, and that nodes are appended to. Beside
/// `Nodes`, as `&mut` is beside `&`.
#[derive(Drop)]
pub struct Arena<'a> {
    pub words: &'a mut [u64],
    pub count: usize,
    pub ghost live: { Live words.now count } by { Live-prop words.now count },
}

impl Arena<'_> {
    ghost use Rattle.rules.specs.Run.{append};
    ghost use Rattle.arena.specs.Live.{New};
    ghost use Rattle.arena.specs.Ends.{Ends};

    pub fn nodes(&self) -> Nodes<'_>
        ensures words { result.words.now ≡ self.now.words.now }
        ensures count { result.count ≡ self.now.count }
    {
        Nodes {
            words: self.words,
            count: self.count,
        }
    }

    /// Appends a node, and says where it stands: the one place that writes one.
    #[tactic(auto, using(crate::specs::Pushed::not_pushed, crate::specs::Pushed::pushed))]
    pub fn push(&mut self, node: Node) -> Result<usize, NoRoom>
        requires new { New (nodes_of self.old.count self.old.words.now) node }
        ensures { Ends self.old self.new (append node (nodes_of self.old.count self.old.words.now)) result }
    {
        let at = self.count;
        if capacity(self.words.len()) <= at {
            return Err(NoRoom);
        }
        self.words[NODE_WORDS * at] = words::nodes::header_of(node);
        self.words[NODE_WORDS * at + 1] = words::nodes::payload_of(node);
        self.count = at + 1;
        Ok(at)
    }
}
