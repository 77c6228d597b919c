use al_values::Row;
use al_xacts::Xact;

/// A version of a row as a heap keeps it.
#[derive(Debug, Drop)]
pub struct Stored {
    /// The row's number.
    pub row: u32,
    /// The version's number, which is that of the entry that made it.
    pub number: u32,
    /// The transaction that made it.
    pub maker: Xact,
    /// The last transaction that removed or replaced it, if any did.
    pub remover: Option<Xact>,
    /// The number of the entry that did, or 0.
    pub removal: u32,
    /// The row's values.
    pub values: Row,
}

/// A version of a row, with its values lent.
#[derive(Clone, Copy, Debug)]
pub struct Version<'a> {
    /// The row's number.
    pub row: u32,
    /// The version's number, which is that of the entry that made it.
    pub number: u32,
    /// The transaction that made it.
    pub maker: Xact,
    /// The last transaction that removed or replaced it, if any did.
    pub remover: Option<Xact>,
    /// The number of the entry that did, or 0.
    pub removal: u32,
    /// The row's values.
    pub values: &'a Row,
}
