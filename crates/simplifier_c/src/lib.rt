// The three calls for C: a thin static library over the crate simplifier, whose clauses it states again, since a crate is a library or
// a static library.
#![tactic(auto)]

ghost use Rattle.std.specs.Prelude.{◌≡◌};
ghost use Rattle.tree.specs.Form.{checked};
ghost use Rattle.tree.specs.Rows.{evaluated};
ghost use Rattle.rules.specs.Call.{simplified_answer, words_after};
ghost use Rattle.simplifier.specs.Replies.{check_reply, simplify_reply, evaluate_reply};

use simplifier::exports;
use simplifier::exports::{CheckReply, EvaluateReply, SimplifyReply};

#[unsafe(no_mangle)]
pub extern "C" fn santofunye_check(words: &[u64], count: usize, root: usize) -> CheckReply
    ensures { result ≡ check_reply (checked words.now count root) }
{
    exports::santofunye_check(words, count, root)
}

#[unsafe(no_mangle)]
pub extern "C" fn santofunye_simplify(words: &mut [u64], count: usize, root: usize) -> SimplifyReply
    ensures answer { result ≡ simplify_reply (simplified_answer words.old count root) count }
    ensures left { words.new ≡ words_after words.old count root }
{
    exports::santofunye_simplify(words, count, root)
}

#[unsafe(no_mangle)]
pub extern "C" fn santofunye_evaluate(
    words: &[u64],
    count: usize,
    root: usize,
    rows: &[u64],
) -> EvaluateReply
    ensures { result ≡ evaluate_reply (evaluated words.now count root rows.now) }
{
    exports::santofunye_evaluate(words, count, root, rows)
}
