ghost use Rattle.std.specs.Prelude.{◌≡◌};
ghost use Rattle.al_modes.specs.Conflicts.{strictness, conflict};

/// A mode in which a table is locked (13.3.1), in order of strictness.
#[derive(Clone, Copy, Debug, PartialEq, Eq, PartialOrd, Ord)]
pub enum Mode {
    /// ACCESS SHARE, of a query that only reads.
    AccessShare,
    /// ROW SHARE, of a query that locks rows.
    RowShare,
    /// ROW EXCLUSIVE, of a statement that changes rows.
    RowExclusive,
    /// SHARE UPDATE EXCLUSIVE, of VACUUM and of some forms of ALTER TABLE.
    ShareUpdateExclusive,
    /// SHARE, of CREATE INDEX.
    Share,
    /// SHARE ROW EXCLUSIVE, of CREATE TRIGGER and of some forms of ALTER TABLE.
    ShareRowExclusive,
    /// EXCLUSIVE, which lets others only read.
    Exclusive,
    /// ACCESS EXCLUSIVE, of DROP TABLE and of most forms of ALTER TABLE.
    AccessExclusive,
}

impl Mode {
    /// The place of the mode in the order of strictness, from 1 to 8.
    pub fn strictness(self) -> u8
        ensures { result ≡ strictness self }
    {
        match self {
            Mode::AccessShare => 1,
            Mode::RowShare => 2,
            Mode::RowExclusive => 3,
            Mode::ShareUpdateExclusive => 4,
            Mode::Share => 5,
            Mode::ShareRowExclusive => 6,
            Mode::Exclusive => 7,
            Mode::AccessExclusive => 8,
        }
    }
}

/// Whether two transactions can't hold these two modes of one table at the same time (13.3.1, table 13.2).
pub fn conflicts(a: Mode, b: Mode) -> bool
    ensures table { result ≡ conflict a b }
    ensures symmetric { result ≡ conflict b a }
{
    let other = b.strictness();
    match a {
        Mode::AccessShare => other >= 8,
        Mode::RowShare => other >= 7,
        Mode::RowExclusive => other >= 5,
        Mode::ShareUpdateExclusive => other >= 4,
        Mode::Share => other >= 3 && other != 5,
        Mode::ShareRowExclusive => other >= 3,
        Mode::Exclusive => other >= 2,
        Mode::AccessExclusive => true,
    }
}
