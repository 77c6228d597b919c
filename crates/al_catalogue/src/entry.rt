use al_schema::Shape;
use al_values::{Copied, IdList, ListOf, Name, NoMemory};
use al_xacts::Xact;
use std::alloc::Global;

/// A table: its name, its shape, and the tables that it inherits from.
#[derive(Debug, Drop)]
pub struct TableEntry {
    /// Its name.
    pub name: Name,
    /// Its columns and constraints.
    pub shape: Shape,
    /// Its parents, in order.
    pub parents: IdList,
}

/// A transaction's own change of a table.
#[derive(Debug, Drop)]
pub struct Own {
    /// The transaction, which is open.
    pub xact: Xact,
    /// The table as it leaves it; None where it is dropped.
    pub entry: Option<TableEntry>,
}

/// What is kept of a table.
#[derive(Debug, Drop)]
pub struct Kept {
    /// The table's number.
    pub number: u32,
    /// What is committed; None where it isn't there.
    pub committed: Option<TableEntry>,
    /// An open transaction's own change.
    pub own: Option<Own>,
}

impl Copied for TableEntry {
    fn copied(&self, alloc: Global) -> Result<TableEntry, NoMemory> {
        Ok(TableEntry {
            name: self.name.copied(alloc)?,
            shape: self.shape.copied(alloc)?,
            parents: ListOf::from_vec(Vec::from_slice(alloc, self.parents.as_slice())?),
        })
    }
}
