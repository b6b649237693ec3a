// A node's fields: zero in every one that its kind does not use, each child index below the node's own.
ghost use Rattle.std.specs.Prelude.{◌≡◌};
ghost use Rattle.tree.specs.Form.{below_if_used, row_fits};

use format::Row;

fn below_if_used(used: bool, child: usize, i: usize) -> bool
    ensures { result ≡ below_if_used used child i }
{
    if used { child < i } else { child == 0 }
}

/// Each field as the kind's line of the table has it. The row, the two words and the index come one by one, as in the definition: a
/// struct of them would be taken apart again in every clause.
pub fn row_fits(row: Row, word: u64, payload: u64, i: usize) -> bool
    ensures { result ≡ row_fits row word payload i }
{
    let left = below_if_used(1 <= row.arity, words::fields::left_of(word), i);
    let right = below_if_used(2 <= row.arity, words::fields::right_of(word), i);
    let space = row.space | (words::fields::space_of(word) == 0);
    left & (right & (space & (row.payload | (payload == 0))))
}
