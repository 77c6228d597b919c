ghost use Rattle.std.specs.Prelude.{◌≡◌};

use al_modes::{Level, RowMode};
use std::marker::Model;

/// A transaction. It is less than each that started later.
#[derive(Clone, Copy, Debug, PartialEq, Eq, PartialOrd, Ord)]
pub struct Xact {
    number: u32,
}

impl Model for Xact {
    ghost use Rattle.std.specs.Prelude.{ℕ};
    ghost use Rattle.std.specs.Coded.{coded_ℕ};

    ghost Value = { ℕ };

    ghost coded = { coded_ℕ };

    ghost view = { λ x. x.number };

    ghost inverse = { λ n. record { number = n } };
}

impl Xact {
    /// How many transactions started before it.
    pub fn number(self) -> u32
        ensures { result ≡ self }
    {
        self.number
    }

    // The transaction before which so many started.
    pub(crate) fn of(number: u32) -> Xact
        ensures { result ≡ number }
    {
        Xact { number }
    }
}

/// How a transaction has ended, or that it hasn't (13.2).
#[derive(Clone, Copy, Debug, PartialEq, Eq)]
pub enum Fate {
    /// It hasn't ended.
    Open,
    /// It was committed.
    Committed,
    /// It was rolled back.
    Aborted,
}

/// A transaction that has started.
#[derive(Clone, Copy, Debug, PartialEq, Eq)]
pub struct Started {
    /// Its session.
    pub session: u32,
    /// Its isolation level.
    pub level: Level,
    /// Its fate.
    pub fate: Fate,
}

/// A mark that a transaction has on a row (13.3.2).
#[derive(Clone, Copy, Debug, PartialEq, Eq)]
pub struct Mark {
    /// The transaction's number.
    pub xact: u32,
    /// The mode of the mark.
    pub mode: RowMode,
}

/// What a transaction that wants to mark a row is answered.
#[derive(Clone, Copy, Debug, PartialEq, Eq)]
pub enum Marked {
    /// It has the mark from now on.
    Done,
    /// Another open transaction's mark is in the way, and nothing has changed.
    Held {
        /// The least such transaction.
        by: Xact,
    },
}
