use al_xacts::Xact;

/// A version of a row that has a key.
#[derive(Debug, Drop)]
pub struct KeyVersion {
    /// The row's number.
    pub row: u32,
    /// The version's place in the heap.
    pub place: u32,
    /// The transaction that made it.
    pub maker: Xact,
    /// The last transaction that removed or replaced it, if any did.
    pub remover: Option<Xact>,
}

/// What a transaction finds that looks for a key.
#[derive(Clone, Copy, Debug, PartialEq, Eq)]
pub enum Sought {
    /// No row has it.
    Free,
    /// A committed or own row has it.
    Held {
        /// The row.
        row: u32,
    },
    /// Another open transaction made a version that has it, or is removing one.
    Open {
        /// The transaction.
        by: Xact,
    },
}
