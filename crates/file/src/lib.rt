// The program's file, and the answer to it: from the bytes of standard input to the four numbers that are printed.
#![tactic(auto)]

pub mod bytes;
pub mod input;
pub mod line;

ghost use Rattle.std.specs.Prelude.{◌≡◌, ◌+◌, ◌*◌, length};
ghost use Rattle.file.specs.File.{head_bytes, word_bytes, words_from, head_of, file_reply, words_after_file, program_reply};

use bytes::WORD_BYTES;
use simplifier::exports::SimplifyReply;
use words::NODE_WORDS;

/// How many words the program's arena has.
pub const PROGRAM_WORDS: usize = 4096;
// How many bytes the file's head takes.
const HEAD_BYTES: usize = WORD_BYTES;
// And a node.
const NODE_BYTES: usize = WORD_BYTES * NODE_WORDS;
// The head has the count above the root: this is what the root stays below.
const ROOT_BOUND: u64 = 0x1_0000_0000;
// Answer 11, a bad file: a number, as all answers are in a reply.
const BAD_FILE: u64 = 11;

/// What a good file's head says of its nodes.
#[derive(Clone, Copy, Debug, PartialEq, Eq)]
pub struct Head {
    pub count: usize,
    pub root: usize,
}

// The head of a file for an arena of at most `most` nodes, where the file is good. Its halves are a quotient and a remainder, as in
// the definition.
#[tactic(auto, using(crate::specs::FileLaws::head_tests))]
fn read_head(bytes: &[u8], most: usize) -> Option<Head>
    ensures { result ≡ head_of bytes.now most }
{
    let head = bytes::word(bytes.first_chunk()?);
    let count = (head / ROOT_BOUND) as usize;
    let root = (head % ROOT_BOUND) as usize;
    if most < count || bytes.len() != HEAD_BYTES + NODE_BYTES * count {
        return None;
    }
    Some(Head { count, root })
}

// Lays the words of the file's nodes over the words. They follow the head, which is a word too. `zip` with the chunks was tried: the
// check knows nothing of the words after it.
#[tactic(auto, using(crate::specs::FileLaws::lay_none, crate::specs::FileLaws::lay_more))]
fn lay(bytes: &[u8], words: &mut [u64])
    requires { length bytes.now ≡ head_bytes + word_bytes * length words.old }
    ensures { words.new ≡ words_from bytes.now head_bytes (length words.old) }
{
    let (chunks, _) = bytes.as_chunks();
    for (k, word) in words.iter_mut().enumerate() {
        *word = bytes::word(&chunks[k + 1]);
    }
}

/// The answer to a file, worked out in the lent words. They are an arena of as many nodes as they hold.
#[tactic(auto, using(crate::specs::FileLaws::answers))]
pub fn answer(bytes: &[u8], words: &mut [u64]) -> SimplifyReply
    ensures answer { result ≡ file_reply bytes.now words.old }
    ensures left { words.new ≡ words_after_file bytes.now words.old }
{
    let Some(Head { count, root }) = read_head(bytes, arena::capacity(words.len())) else {
        return SimplifyReply {
            number: BAD_FILE,
            place: 0,
            root: 0,
            count: 0,
        };
    };
    lay(bytes, &mut words[..NODE_WORDS * count]);
    simplifier::exports::santofunye_simplify(words, count, root)
}

/// The program's answer to a file: it lends an array of zeros.
pub fn program_answer(bytes: &[u8]) -> SimplifyReply
    ensures { result ≡ program_reply bytes.now }
{
    let mut words = [0u64; PROGRAM_WORDS];
    answer(bytes, &mut words)
}
