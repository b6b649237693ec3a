// The writer: carries a decision out.
ghost use Rattle.std.specs.Prelude.{◌≡◌, ◌<◌, ℕ};
ghost use Rattle.std.specs.Option.{ForSome};
ghost use Rattle.format.specs.declared.Node.{Node};
ghost use Rattle.rules.specs.Run.{append, make_const};
ghost use Rattle.arena.specs.Live.{New};
ghost use Rattle.arena.specs.Ends.{Ends};
ghost use Rattle.settle.specs.Settled.{nodes_in, settled, Settles};

use arena::{Arena, NoRoom};
use arith::width::Width;
use format::{Bin, Node, Un};
use rules::Act;
use values::make_const;

/// An operator, of one child or of two.
pub trait Operator: Copy {
    ghost over_of: { Self → (size a b : ℕ) → Node };

    /// Its node over a, or over a and b.
    fn over(self, size: u64, a: usize, b: usize) -> Node
        ensures { result ≡ over_of self size a b };
}

impl Operator for Un {
    ghost over_of = { λ op size a b. Node.Unary op size a };

    fn over(self, size: u64, a: usize, _: usize) -> Node {
        Node::Unary(self, size, a)
    }
}

impl Operator for Bin {
    ghost over_of = { λ op size a b. Node.Binary op size a b };

    fn over(self, size: u64, a: usize, b: usize) -> Node {
        Node::Binary(self, size, a, b)
    }
}

fn push_const(arena: &mut Arena<'_>, width: Width, v: u64) -> Result<usize, NoRoom>
    requires { New (nodes_in arena.old) (make_const width.bytes v) }
    ensures { Ends arena.old arena.new (append (make_const width.bytes v) (nodes_in arena.old)) result }
{
    arena.push(make_const(width, v))
}

/// Carries an action out on a node, short of simplifying again. Its simplified children are a and b, and where it has them
/// still, `kept` is its index. It takes what the definition `settled` takes.
pub fn settle<O: Operator>(
    arena: &mut Arena<'_>,
    act: Act,
    kept: Option<usize>,
    op: O,
    width: Width,
    a: usize,
    b: usize,
) -> Result<usize, NoRoom>
    requires kept_lt_count { ForSome kept (λ i. i < arena.old.count) }
    requires a_lt_count { (a < arena.old.count) × (b < arena.old.count) }
    requires settles { Settles (nodes_in arena.old) act (O.over_of op width.bytes a b) (O.over_of op width.bytes b a) width.bytes a b }
    ensures { Ends arena.old arena.new (settled act kept (O.over_of op width.bytes) width.bytes (nodes_in arena.old) a b) result }
{
    let size = width.bytes;
    match act {
        Act::Keep => match kept {
            Some(i) => Ok(i),
            None => arena.push(op.over(size, a, b)),
        },
        Act::Swap => arena.push(op.over(size, b, a)),
        Act::Give(which) => Ok(arena.nodes().near(which, a, b)),
        Act::Make(v) => push_const(arena, width, v),
        Act::Redo(bin, which, v) => {
            let left = arena.nodes().near(which, a, b);
            let right = push_const(arena, width, v)?;
            arena.push(Node::Binary(bin, size, left, right))
        }
        Act::RedoUnary(un, which) => {
            let left = arena.nodes().near(which, a, b);
            arena.push(Node::Unary(un, size, left))
        }
    }
}
