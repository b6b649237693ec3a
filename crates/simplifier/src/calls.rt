// The calls. None asks anything of its caller: bad input is refused by an error, and the contract gives every word. The slice, the
// count and the root come apart, as C hands them in.
ghost use Rattle.std.specs.Prelude.{◌≡◌, ◌<◌};
ghost use Rattle.tree.specs.Form.{checked};
ghost use Rattle.tree.specs.Rows.{evaluated};
ghost use Rattle.rules.specs.Call.{ran_on, fits, ended, words_left, simplified_answer, words_after};
ghost use Rattle.arena.specs.Live.{Live};
ghost use Rattle.arena.specs.Ended.{Ended};
ghost use Rattle.simplifier.specs.Left.{step_to};

use arena::{Arena, NoRoom, Nodes, capacity};
use rules::{Simplified, SimplifyError};
use run::dispatch::dispatch;
use tree::{EvaluateError, Refusal};
use words::NODE_WORDS;

// The run on an arena that has passed the check: where it ends, or without room.
fn run(words: &mut [u64], count: usize, root: usize) -> Result<Simplified, NoRoom>
    requires live { Live words.old count }
    requires root_lt_count { root < count }
    ensures { Ended words.old words.new count (ran_on words.old count root) (step_to result) }
{
    let mut arena = Arena { words, count };
    let root = dispatch(&mut arena, root)?;
    Ok(Simplified {
        root,
        count: arena.count,
    })
}

// The run, after which the words of the free nodes are zero if there is no room.
fn rewrite(words: &mut [u64], count: usize, root: usize) -> Result<Simplified, SimplifyError>
    requires live { Live words.old count }
    requires root_lt_count { root < count }
    ensures answer { result ≡ ended (fits words.old (ran_on words.old count root)) (ran_on words.old count root) }
    ensures left { words.new ≡ words_left result words.old count (ran_on words.old count root) }
{
    if let Ok(to) = run(words, count, root) {
        return Ok(to);
    }
    let end = NODE_WORDS * capacity(words.len());
    words[NODE_WORDS * count..end].fill(0);
    Err(SimplifyError::NoRoom)
}

pub fn check(words: &[u64], count: usize, root: usize) -> Result<(), Refusal>
    ensures { result ≡ checked words.now count root }
{
    form::check(words, count, root)
}

#[tactic(auto, using(crate::specs::Answers::by_verdict))]
pub fn simplify(words: &mut [u64], count: usize, root: usize) -> Result<Simplified, SimplifyError>
    ensures answer { result ≡ simplified_answer words.old count root }
    ensures left { words.new ≡ words_after words.old count root }
{
    form::check(words, count, root)?;
    rewrite(words, count, root)
}

#[tactic(auto, using(eval::specs::EvaluatedLaws::evaluated_checked))]
pub fn evaluate(
    words: &[u64],
    count: usize,
    root: usize,
    rows: &[u64],
) -> Result<u64, EvaluateError>
    ensures { result ≡ evaluated words.now count root rows.now }
{
    check(words, count, root)?;
    eval::evaluate_checked(Nodes { words, count }, root, rows)
}
