// A rule on a node whose children are simplified and not Top: its decision, carried out.
ghost use Rattle.std.specs.Prelude.{◌≡◌};
ghost use Rattle.theory.specs.Visits.{redoes as redoes_act};
ghost use Rattle.settle.specs.Visits.{OneIn, TwoIn, OneRuns, TwoRuns, outcome_of};

use crate::writer::settle;
use acts::decide;
use arena::{Arena, NoRoom};
use arith::width::Width;
use format::{Bin, Un};
use rules::Act;

/// A node of one child: its index and its fields. From here on nodes of one child and of two have a function each, as the run has a
/// definition for each (`unary_run`, `binary_run`): what they are over differs, and not a type. The size is as the node has it.
#[derive(Clone, Copy, Debug, PartialEq, Eq)]
pub struct One {
    pub index: usize,
    pub op: Un,
    pub size: u64,
    pub left: usize,
}

/// A node of two children: its index and its fields.
#[derive(Clone, Copy, Debug, PartialEq, Eq)]
pub struct Two {
    pub index: usize,
    pub op: Bin,
    pub size: u64,
    pub left: usize,
    pub right: usize,
}

/// What a rule has made of a node: where it stands, and whether it is to be simplified again. Neither ends the run, so it is no
/// `ControlFlow`.
#[derive(Clone, Copy, Debug, PartialEq, Eq)]
pub enum Outcome {
    Done(usize),
    Again(usize),
}

fn redoes(act: Act) -> bool
    ensures { result ≡ redoes_act act }
{
    matches!(act, Act::Redo(..) | Act::RedoUnary(..))
}

fn outcome_of(again: bool, root: usize) -> Outcome
    ensures { result ≡ outcome_of again root }
{
    if again {
        Outcome::Again(root)
    } else {
        Outcome::Done(root)
    }
}

/// The rule of a node whose child has become a.
#[tactic(auto, using(acts::specs::Decided::un_over_size, crate::specs::Settled::settles_unary))]
pub fn one_rule(arena: &mut Arena<'_>, node: One, a: usize) -> Result<Outcome, NoRoom>
    requires { OneIn arena.old node a }
    ensures { OneRuns arena.old arena.new node a result }
{
    let width = Width { bytes: node.size };
    let act = decide::un_act(arena.nodes(), node.op, node.size, a);
    let kept = (a == node.left).then_some(node.index);
    let root = settle(arena, act, kept, node.op, width, a, a)?;
    Ok(outcome_of(redoes(act), root))
}

/// The rule of a node whose children have become a and b.
#[tactic(auto, using(acts::specs::Decided::over_size, crate::specs::Settled::settles_binary))]
pub fn two_rule(arena: &mut Arena<'_>, node: Two, a: usize, b: usize) -> Result<Outcome, NoRoom>
    requires { TwoIn arena.old node a b }
    ensures { TwoRuns arena.old arena.new node a b result }
{
    let width = Width { bytes: node.size };
    let act = decide::bin_act(arena.nodes(), node.op, node.size, a, b);
    let kept = ((a == node.left) & (b == node.right)).then_some(node.index);
    let root = settle(arena, act, kept, node.op, width, a, b)?;
    Ok(outcome_of(redoes(act), root))
}
