ghost use Rattle.std.specs.Prelude.{◌≡◌};
ghost use Rattle.al_modes.specs.RowConflicts.{row_conflict};

/// A mode in which a row is locked (13.3.2), in order of strength.
#[derive(Clone, Copy, Debug, PartialEq, Eq, PartialOrd, Ord)]
pub enum RowMode {
    /// FOR KEY SHARE, which keeps others from deleting the row and from changing its key.
    KeyShare,
    /// FOR SHARE, which keeps others from changing the row.
    Share,
    /// FOR NO KEY UPDATE, of an UPDATE that changes no key.
    NoKeyUpdate,
    /// FOR UPDATE, of a DELETE and of an UPDATE that changes a key.
    Update,
}

/// Whether two transactions can't hold these two modes of one row at the same time (13.3.2, table 13.3).
pub fn row_conflicts(a: RowMode, b: RowMode) -> bool
    ensures table { result ≡ row_conflict a b }
    ensures symmetric { result ≡ row_conflict b a }
{
    match a {
        RowMode::KeyShare => b == RowMode::Update,
        RowMode::Share => b >= RowMode::NoKeyUpdate,
        RowMode::NoKeyUpdate => b >= RowMode::Share,
        RowMode::Update => true,
    }
}
