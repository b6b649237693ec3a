// Evaluation, from the check on: a bad row, a Top that is reached, an input without a row, or the value. It writes nothing.
#![tactic(auto)]

ghost use Rattle.std.specs.Prelude.{◌≡◌, ◌<◌};
ghost use Rattle.eval.specs.Answers.{evaluated_live};

pub mod rows;
pub mod walk;

use arena::Nodes;
use tree::EvaluateError;
use walk::Evaluation;

/// What evaluation answers of nodes and a root that have passed the check.
#[tactic(auto, unfolding(crate::specs::Answers::evaluated_live))]
pub fn evaluate_checked(nodes: Nodes<'_>, root: usize, rows: &[u64]) -> Result<u64, EvaluateError>
    requires { root < nodes.count }
    ensures { result ≡ evaluated_live nodes.entry.words.now nodes.entry.count root rows.now }
{
    if let Some(j) = rows::bad_row(rows) {
        return Err(EvaluateError::BadRow(j));
    }
    if walk::has_top(&nodes, root) {
        return Err(EvaluateError::TopReachable);
    }
    Evaluation { nodes, rows }
        .value_at(root)
        .map_err(EvaluateError::InputMissing)
}
