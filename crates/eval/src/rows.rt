// Rows of values for inputs: three words each, the two words of an input and then its value.
ghost use Rattle.std.specs.Prelude.{◌≡◌};
ghost use Rattle.eval.specs.Chunks.{good_chunk, value_in};
ghost use Rattle.tree.specs.Rows.{bad_row, found};

use form::sizes;
use words::fields;

// How many words a row takes.
const ROW_WORDS: usize = 3;

// A row is good if it is whole, its size is one, and its value fits it.
fn good_row(row: &[u64]) -> bool
    ensures { result ≡ good_chunk row.now }
{
    match row {
        [word, _, value] => {
            let size = fields::size_of(*word);
            sizes::is_size(size) & sizes::fits(*value, size)
        }
        _ => false,
    }
}

/// The first bad row. After the whole rows, one that the slice ends inside is bad too.
pub fn bad_row(rows: &[u64]) -> Option<usize>
    ensures { result ≡ bad_row rows.now }
{
    rows.chunks(ROW_WORDS).position(|row| !good_row(row))
}

// The value in a row that has these two words. They come one by one, as in the definition `found`.
fn value_in(row: &[u64], word: u64, payload: u64) -> Option<u64>
    ensures { result ≡ value_in row.now word payload }
{
    match row {
        [first, second, value] if (*first == word) & (*second == payload) => Some(*value),
        _ => None,
    }
}

/// The value of the first row that has these two words.
pub fn find(rows: &[u64], word: u64, payload: u64) -> Option<u64>
    ensures { result ≡ found rows.now word payload }
{
    rows.chunks_exact(ROW_WORDS)
        .find_map(|row| value_in(row, word, payload))
}
