// Well sized: the rule of the node's kind on its size, its payload and its children's sizes.
ghost use Rattle.std.specs.Prelude.{true, ◌≡◌, ◌+◌, ◌*◌, ◌^◌, ◌<◌, leb, ltb, length};
ghost use Rattle.format.specs.Header.{left_of, right_of};
ghost use Rattle.format.specs.Limits.{node_words};
ghost use Rattle.tree.specs.Form.{is_size, same_size, no_wider, one_size, sized as sized_of, child_size, row_sized};

use format::{Row, Sizing};

// Top's number. A number, and no shape, since an unknown kind has Top's shape too, and the definition tells them apart.
const KIND_TOP: usize = 0;

/// Whether a value may have this size. `matches!` was tried: it compiles to jumps.
pub fn is_size(size: u64) -> bool
    ensures { result ≡ is_size size }
{
    (size == 1) | ((size == 2) | ((size == 4) | (size == 8)))
}

// Three definitions of what a child's size may be, and a line for each.
fn same_size(size: u64, child: Option<u64>) -> bool
    ensures { result ≡ same_size size child }
{
    child.is_none_or(|bytes| bytes == size)
}

fn no_wider(size: u64, child: Option<u64>) -> bool
    ensures { result ≡ no_wider size child }
{
    child.is_none_or(|bytes| bytes <= size)
}

fn one_size(left: Option<u64>, right: Option<u64>) -> bool
    ensures { result ≡ one_size left right }
{
    left.is_none_or(|bytes| same_size(bytes, right))
}

/// Whether a value fits `size` bytes. Every word fits eight.
pub fn fits(value: u64, size: u64) -> bool
    ensures { result ≡ ltb value (2 ^ (8 * size)) }
{
    8 <= size || value < (1 << (8 * size))
}

fn sized(sizing: Sizing, size: u64, payload: u64, left: Option<u64>, right: Option<u64>) -> bool
    ensures { result ≡ sized_of sizing size payload left right }
{
    let known = is_size(size);
    match sizing {
        Sizing::Unsized => size == 0,
        Sizing::Input => known,
        Sizing::Constant => known & fits(payload, size),
        Sizing::Same => known & (same_size(size, left) & same_size(size, right)),
        Sizing::Shift => known & (same_size(size, left) & no_wider(size, right)),
        Sizing::Extension => known & no_wider(size, left),
        Sizing::Flag => (size == 1) & one_size(left, right),
    }
}

// What the rule sees of a child: nothing of one that the kind does not have, or that is Top.
fn child_size(words: &[u64], used: bool, child: usize) -> Option<u64>
    requires { used ≡ true → node_words * child + 1 < length words.now }
    ensures { result ≡ child_size words.now used child }
{
    if !used {
        return None;
    }
    let word = arena::header_at(words, child);
    (words::fields::kind_of(word) != KIND_TOP).then_some(words::fields::size_of(word))
}

/// The rule of a row, at a node whose children lie in the slice.
pub fn row_sized(words: &[u64], row: Row, word: u64, payload: u64) -> bool
    requires word_in_bounds { leb 1 row.arity ≡ true → node_words * left_of word + 1 < length words.now }
    requires word_in_bounds_2 { leb 2 row.arity ≡ true → node_words * right_of word + 1 < length words.now }
    ensures { result ≡ row_sized words.now row word payload }
{
    let left = child_size(words, 1 <= row.arity, words::fields::left_of(word));
    let right = child_size(words, 2 <= row.arity, words::fields::right_of(word));
    let size = words::fields::size_of(word);
    sized(row.sizing, size, payload, left, right)
}
