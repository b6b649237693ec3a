// The calls for Rust, and for C through the crate simplifier_c: numbers, places and values, in structs, as C has them.
ghost use Rattle.std.specs.Prelude.{◌≡◌, Some};
ghost use Rattle.tree.specs.Form.{checked};
ghost use Rattle.tree.specs.Rows.{evaluated};
ghost use Rattle.rules.specs.Call.{simplified_answer, words_after};
ghost use Rattle.simplifier.specs.Replies.{check_reply, simplify_reply, simplify_text, evaluate_reply};

use crate::calls;
use rules::{Simplified, SimplifyError};
use std::fmt;
use tree::{EvaluateError, Refusal};

#[repr(C)]
#[derive(Clone, Copy, Debug, PartialEq, Eq)]
pub struct CheckReply {
    pub number: u64,
    pub place: u64,
}

#[repr(C)]
#[derive(Clone, Copy, Debug, PartialEq, Eq)]
pub struct SimplifyReply {
    pub number: u64,
    pub place: u64,
    pub root: u64,
    pub count: u64,
}

#[repr(C)]
#[derive(Clone, Copy, Debug, PartialEq, Eq)]
pub struct EvaluateReply {
    pub number: u64,
    pub place: u64,
    pub value: u64,
}

impl From<Result<(), Refusal>> for CheckReply {
    ghost from_gives = { λ verdict reply. reply ≡ check_reply verdict };

    fn from(verdict: Result<(), Refusal>) -> CheckReply {
        match verdict {
            Ok(()) => CheckReply {
                number: 0,
                place: 0,
            },
            Err(refusal) => CheckReply {
                number: refusal.number(),
                place: refusal.place() as u64,
            },
        }
    }
}

impl SimplifyReply {
    /// The reply of a call that was handed `count` nodes.
    fn new(answer: Result<Simplified, SimplifyError>, count: u64) -> SimplifyReply
        ensures { result ≡ simplify_reply answer count }
    {
        match answer {
            Ok(to) => SimplifyReply {
                number: 0,
                place: 0,
                root: to.root as u64,
                count: to.count as u64,
            },
            Err(SimplifyError::Refused(refusal)) => SimplifyReply {
                number: refusal.number(),
                place: refusal.place() as u64,
                root: 0,
                count,
            },
            Err(SimplifyError::NoRoom) => SimplifyReply {
                number: 7,
                place: 0,
                root: 0,
                count,
            },
        }
    }
}

/// Number, place, root and count, in decimals with a space between.
impl fmt::Display for SimplifyReply {
    ghost output = { λ reply. Some (simplify_text reply) };

    fn fmt<W: fmt::Write>(&self, f: &mut fmt::Formatter<W>) -> fmt::Result {
        let SimplifyReply {
            number,
            place,
            root,
            count,
        } = *self;
        write!(f, "{number} {place} {root} {count}")
    }
}

impl From<Result<u64, EvaluateError>> for EvaluateReply {
    ghost from_gives = { λ answer reply. reply ≡ evaluate_reply answer };

    fn from(answer: Result<u64, EvaluateError>) -> EvaluateReply {
        let (number, place, value) = match answer {
            Ok(value) => (0, 0, value),
            Err(EvaluateError::Refused(refusal)) => (refusal.number(), refusal.place(), 0),
            Err(EvaluateError::BadRow(j)) => (8, j, 0),
            Err(EvaluateError::TopReachable) => (10, 0, 0),
            Err(EvaluateError::InputMissing(i)) => (9, i, 0),
        };
        EvaluateReply {
            number,
            place: place as u64,
            value,
        }
    }
}

pub fn santofunye_check(words: &[u64], count: usize, root: usize) -> CheckReply
    ensures { result ≡ check_reply (checked words.now count root) }
{
    calls::check(words, count, root).into()
}

pub fn santofunye_simplify(words: &mut [u64], count: usize, root: usize) -> SimplifyReply
    ensures answer { result ≡ simplify_reply (simplified_answer words.old count root) count }
    ensures left { words.new ≡ words_after words.old count root }
{
    SimplifyReply::new(calls::simplify(words, count, root), count as u64)
}

pub fn santofunye_evaluate(words: &[u64], count: usize, root: usize, rows: &[u64]) -> EvaluateReply
    ensures { result ≡ evaluate_reply (evaluated words.now count root rows.now) }
{
    calls::evaluate(words, count, root, rows).into()
}
