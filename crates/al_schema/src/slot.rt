use al_values::{Copied, Kind, ListOf, Name, NoMemory, Value};
use std::alloc::Global;

/// A place for a column's values in each row. It keeps its number for ever, also once the column is dropped.
#[derive(Debug, Drop)]
pub struct Slot {
    /// The column's name.
    pub name: Name,
    /// The kind of its values.
    pub kind: Kind,
    /// What a new row has there where it gives no value; Null where there is no default.
    pub default: Value,
    /// What a row has there that is older than the column. No later default changes it.
    pub added: Value,
    /// Whether the column takes no null.
    pub not_null: bool,
    /// Whether the column was defined here by itself, and not only inherited (5.10).
    pub own: bool,
    /// Whether the column was dropped.
    pub dropped: bool,
}

/// Slots, one after another.
pub type SlotList = ListOf<Slot>;

impl Copied for Slot {
    fn copied(&self, alloc: Global) -> Result<Slot, NoMemory> {
        Ok(Slot {
            name: self.name.copied(alloc)?,
            kind: self.kind,
            default: self.default.copied(alloc)?,
            added: self.added.copied(alloc)?,
            not_null: self.not_null,
            own: self.own,
            dropped: self.dropped,
        })
    }
}
