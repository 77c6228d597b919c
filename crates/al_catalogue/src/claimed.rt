use al_xacts::Xact;

/// What a transaction that wants a name is answered.
#[derive(Clone, Copy, Debug, PartialEq, Eq)]
pub enum Claimed {
    /// No table has it.
    Free,
    /// A table has it.
    Taken { table: u32 },
    /// An open transaction made, dropped or renamed a table of that name.
    Open { by: Xact },
}
