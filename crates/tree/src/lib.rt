// Why the check refuses an arena, and why evaluation gives no value: the definitions in specs/ say when, for any words.
#![tactic(auto)]

ghost use Rattle.std.specs.Prelude.{◌≡◌};
ghost use Rattle.tree.specs.declared.EvaluateError.TheVariants.{Refused};

/// Answers 1 to 6.
#[derive(Clone, Copy, Debug, PartialEq, Eq)]
pub enum Refusal {
    CountAboveCapacity,
    RootNotBelowCount,
    IllFormed(usize),
    IllSized(usize),
    TooManyNodes,
    PathTooLong,
}

impl Refusal {
    ghost use Rattle.tree.specs.Form.{refusal_number, refusal_place};

    /// The answer's number.
    pub fn number(self) -> u64
        ensures { result ≡ refusal_number self }
    {
        match self {
            Refusal::CountAboveCapacity => 1,
            Refusal::RootNotBelowCount => 2,
            Refusal::IllFormed(_) => 3,
            Refusal::IllSized(_) => 4,
            Refusal::TooManyNodes => 5,
            Refusal::PathTooLong => 6,
        }
    }

    /// The place: the index of the node that is not well formed or not well sized, or 0.
    pub fn place(self) -> usize
        ensures { result ≡ refusal_place self }
    {
        match self {
            Refusal::IllFormed(i) | Refusal::IllSized(i) => i,
            _ => 0,
        }
    }
}

/// The check's refusal, or answers 8, 10 and 9.
#[derive(Clone, Copy, Debug, PartialEq, Eq)]
pub enum EvaluateError {
    Refused(Refusal),
    BadRow(usize),
    TopReachable,
    InputMissing(usize),
}

impl From<Refusal> for EvaluateError {
    ghost from_gives = { λ refusal error. error ≡ Refused refusal };

    fn from(refusal: Refusal) -> EvaluateError {
        EvaluateError::Refused(refusal)
    }
}
