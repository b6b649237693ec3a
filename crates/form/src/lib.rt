// The check of an arena, exact over any words, count and root: answers 0 to 6.
#![tactic(auto)]

ghost use Rattle.std.specs.Prelude.{◌≡◌, ◌+◌, ◌*◌, ◌≤◌, ◌<◌, length};
ghost use Rattle.format.specs.KindRules.{rows};
ghost use Rattle.format.specs.Limits.{node_words};
ghost use Rattle.tree.specs.Form.{judged, scanned, checked};

mod fields;
mod limits;
pub mod sizes;

use arena::Nodes;
use format::Row;
use tree::Refusal;

// The verdict on a node, by its kind's row of the table: its form before its sizes, whose rule leans on the form.
fn judge(words: &[u64], kinds: &[Row], i: usize) -> Result<(), Refusal>
    requires i_in_bounds { node_words * i + 1 < length words.now }
    requires kinds_value { kinds.now ≡ rows }
    ensures { result ≡ judged words.now i }
{
    let word = arena::header_at(words, i);
    let payload = arena::payload_at(words, i);
    match kinds.get(words::fields::kind_of(word)) {
        Some(&row) if fields::row_fits(row, word, payload, i) => {
            if sizes::row_sized(words, row, word, payload) {
                Ok(())
            } else {
                Err(Refusal::IllSized(i))
            }
        }
        _ => Err(Refusal::IllFormed(i)),
    }
}

// The nodes upward, left by break at the first bad one, with its verdict: a form that the project asks for (docs/DECISIONS.md). The
// table of kinds is made once, before the first node. Not put in place in `check`, whose first two refusals would wait for its registers.
#[inline(never)]
fn scan(words: &[u64], count: usize) -> Result<(), Refusal>
    requires { node_words * count ≤ length words.now }
    ensures { result ≡ scanned words.now count 0 }
{
    let kinds = words::kinds::table();
    let mut verdict = Ok(());
    for i in 0..count {
        verdict = judge(words, &kinds, i);
        if verdict.is_err() {
            break;
        }
    }
    verdict
}

/// Checks the first `count` nodes of the words, and the tree under the root. An error is the first thing that is wrong.
pub fn check(words: &[u64], count: usize, root: usize) -> Result<(), Refusal>
    ensures { result ≡ checked words.now count root }
{
    if arena::capacity(words.len()) < count {
        return Err(Refusal::CountAboveCapacity);
    }
    if count <= root {
        return Err(Refusal::RootNotBelowCount);
    }
    scan(words, count)?;
    limits::limited(&Nodes { words, count }, root)
}
