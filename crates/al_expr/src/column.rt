ghost use Rattle.std.specs.Prelude.{◌≡◌};
ghost use Rattle.al_expr.specs.Columns.{column_kind};

use al_values::{Copied, Kind, ListOf, Name, NoMemory};
use std::alloc::Global;

/// A column that an expression may name.
#[derive(Debug, Drop)]
pub struct Column {
    /// The column's name.
    pub name: Name,
    /// The kind of its values.
    pub kind: Kind,
}

/// The columns of a row, in order.
pub type ColumnList = ListOf<Column>;

impl Copied for Column {
    fn copied(&self, alloc: Global) -> Result<Column, NoMemory> {
        Ok(Column {
            name: self.name.copied(alloc)?,
            kind: self.kind,
        })
    }
}

/// The kind of the first column that has the name.
pub(crate) fn column_kind(columns: &[Column], name: &Name) -> Option<Kind>
    ensures { result ≡ column_kind columns.now name.now }
{
    for column in columns {
        if column.name == *name {
            return Some(column.kind);
        }
    }
    None
}
