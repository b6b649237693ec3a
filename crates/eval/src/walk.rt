// The walk from a node into its children, whose index falls: each node of the unfolded tree is visited at most once.
ghost use Rattle.std.specs.Prelude.{None, false, ◌≡◌, ◌<◌};
ghost use Rattle.std.specs.Option.{ok_or};
ghost use Rattle.arena.specs.Live.{tree_of};
ghost use Rattle.eval.specs.Answers.{input_value, answer_at};
ghost use Rattle.tree.specs.Rows.{bad_row};
ghost use Rattle.tree.specs.Tree.{has_top};

use crate::rows;
use arena::Nodes;
use format::Node;

/// Whether a Top is reached from node i.
pub fn has_top(nodes: &Nodes<'_>, i: usize) -> bool
    requires { i < nodes.now.count }
    ensures { result ≡ has_top (tree_of nodes.now.count nodes.now.words.now i) }
{
    match nodes.node(i) {
        Node::Top => true,
        Node::Unary(_, _, left) => has_top(nodes, left),
        Node::Binary(_, _, left, right) => has_top(nodes, left) || has_top(nodes, right),
        _ => false,
    }
}

/// Nodes, and rows of values for their inputs, none of them bad.
#[derive(Clone, Copy)]
pub struct Evaluation<'a> {
    pub nodes: Nodes<'a>,
    pub rows: &'a [u64],
    pub ghost good: { bad_row rows.now ≡ None },
}

impl Evaluation<'_> {
    // An input's value is looked up by its two words.
    fn input_at(&self, i: usize) -> Result<u64, usize>
        requires { i < self.now.nodes.count }
        ensures { result ≡ ok_or (input_value self.now.nodes.words.now self.now.rows.now i) i }
    {
        rows::find(self.rows, self.nodes.header(i), self.nodes.payload(i)).ok_or(i)
    }

    /// The value of the tree under node i, from which no Top is reached, or the index of the first input without a row: that
    /// alone, since a result over `EvaluateError` comes back through memory at each node of the walk.
    pub fn value_at(&self, i: usize) -> Result<u64, usize>
        requires i_lt_count { i < self.now.nodes.count }
        requires topless { has_top (tree_of self.now.nodes.count self.now.nodes.words.now i) ≡ false }
        ensures { result ≡ answer_at self.now.nodes.words.now self.now.nodes.count self.now.rows.now i }
    {
        match self.nodes.node(i) {
            Node::Top => Ok(0),
            Node::Entry(..) | Node::Bind(..) => self.input_at(i),
            Node::Const(_, value) => Ok(value),
            Node::Unary(op, size, left) => {
                let x = self.value_at(left)?;
                Ok(values::un_value(op, size, self.nodes.node(left).size(), x))
            }
            Node::Binary(op, size, left, right) => {
                let first = self.value_at(left)?;
                let second = self.value_at(right)?;
                Ok(values::bin_value(op, size, self.nodes.node(left).size(), first, second))
            }
        }
    }
}
