ghost use Rattle.std.specs.Prelude.{◌≡◌, length, nat_lt, slice_index_or, if◌then◌else◌, ◌∷◌, ◌++◌, [], IfOk, OnOk};
ghost use Rattle.al_schema.specs.Slots.{columns_of, row_by};

use crate::Slot;
use al_expr::{Column, ColumnList};
use al_values::{Copied, ListOf, NoMemory, Row, Value};
use std::alloc::Global;

/// The columns: the slots that aren't dropped.
pub(crate) fn columns_of(alloc: Global, slots: &[Slot]) -> Result<ColumnList, NoMemory>
    ensures { IfOk result (λ columns. columns ≡ columns_of slots.now) }
{
    let mut columns = ListOf::new(alloc);
    for slot in slots {
        if !slot.dropped {
            columns.push(Column {
                name: slot.name.copied(alloc)?,
                kind: slot.kind,
            })?;
        }
    }
    Ok(columns)
}

/// What stands in a slot of a row.
fn value_at(alloc: Global, at: usize, slot: &Slot, stored: &[Value]) -> Result<Value, NoMemory>
    ensures { IfOk result (λ value. value ≡ (if nat_lt at (length stored.now) then slice_index_or stored.now at slot.now.added else slot.now.added)) }
{
    match stored.get(at) {
        Some(value) => value.copied(alloc),
        None => slot.added.copied(alloc),
    }
}

/// Puts the value of a slot at a row's end; a dropped slot has none.
fn push_value(
    alloc: Global,
    row: &mut Row,
    at: usize,
    slot: &Slot,
    stored: &[Value],
) -> Result<(), NoMemory>
    ensures { OnOk result (row.new ≡ (if slot.now.dropped then row.old else row.old ++ (if nat_lt at (length stored.now) then slice_index_or stored.now at slot.now.added else slot.now.added) ∷ [])) }
{
    if slot.dropped {
        return Ok(());
    }
    row.push(value_at(alloc, at, slot, stored)?)
}

/// A row by its stored values.
pub(crate) fn row_by(alloc: Global, slots: &[Slot], stored: &[Value]) -> Result<Row, NoMemory>
    ensures { IfOk result (λ row. row ≡ row_by slots.now stored.now) }
{
    let mut row = ListOf::new(alloc);
    for (at, slot) in slots.iter().enumerate() {
        push_value(alloc, &mut row, at, slot, stored)?;
    }
    Ok(row)
}
