ghost use Rattle.std.specs.Prelude.{◌≡◌, ◌||◌};
ghost use Rattle.al_engine.specs.Outcomes.{is_refused};

/// The session has a step in hand, so it can't be given another.
#[derive(Clone, Copy, Debug, PartialEq, Eq)]
pub struct Busy;

/// What became of a statement in a turn.
#[derive(Clone, Copy, Debug, PartialEq, Eq)]
pub enum Outcome {
    /// It goes on, or is done.
    WentOn,
    /// It was refused, and its step has ended.
    Refused,
}

impl Outcome {
    /// Whether it was refused.
    pub fn is_refused(self) -> bool
        ensures { result ≡ is_refused self }
    {
        match self {
            Outcome::WentOn => false,
            Outcome::Refused => true,
        }
    }

    /// What became of two statements together: a refusal where one of them was refused.
    pub fn or(self, other: Outcome) -> Outcome
        ensures { is_refused result ≡ (is_refused self || is_refused other) }
    {
        match self {
            Outcome::WentOn => other,
            Outcome::Refused => Outcome::Refused,
        }
    }
}

/// What a turn of a session did.
#[derive(Clone, Copy, Debug, PartialEq, Eq)]
pub enum Told {
    /// It made the entries at these places of the journal, from `from` up to and without `to`.
    Went {
        /// The place of the first.
        from: u32,
        /// The place after the last.
        to: u32,
        /// What became of the statement in hand.
        outcome: Outcome,
    },
    /// The session's step in hand waits: somebody blocks it.
    Waits,
    /// The session has no step in hand.
    Idle,
}
