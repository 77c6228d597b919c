ghost use Rattle.std.specs.Prelude.{◌≡◌, IfOk};
ghost use Rattle.std.specs.Option.{option_copied};
ghost use Rattle.al_query.specs.Origins.{names_in, origins_of, origin_named, origins_named, stored_at, value_from, row_from};

use al_expr::{Column, ColumnList};
use al_schema::{Shape, Slot};
use al_values::{Copied, ListOf, Name, NameList, NoMemory, Row, Value};
use std::alloc::Global;

/// Where the values of a query's column stand in the stored rows of a table.
#[derive(Debug, Drop)]
pub struct Origin {
    /// The slot; None where the table has no such column.
    pub slot: Option<usize>,
    /// What a row has that stores nothing there.
    pub missing: Value,
}

/// The names of columns.
pub(crate) fn names_in(alloc: Global, columns: &ColumnList) -> Result<NameList, NoMemory>
    ensures { IfOk result (λ names. names ≡ names_in columns.now) }
{
    let mut names = ListOf::new(alloc);
    for column in columns.as_slice() {
        names.push(column.name.copied(alloc)?)?;
    }
    Ok(names)
}

/// Where the columns of a table stand: in the slots that aren't dropped.
pub(crate) fn origins_of(alloc: Global, slots: &[Slot]) -> Result<ListOf<Origin>, NoMemory>
    ensures { IfOk result (λ origins. origins ≡ origins_of slots.now) }
{
    let mut origins = ListOf::new(alloc);
    for (at, slot) in slots.iter().enumerate() {
        if !slot.dropped {
            origins.push(Origin {
                slot: Some(at),
                missing: slot.added.copied(alloc)?,
            })?;
        }
    }
    Ok(origins)
}

/// Where the column of a name stands in a table.
fn origin_named(alloc: Global, shape: &Shape, name: &Name) -> Result<Origin, NoMemory>
    ensures { IfOk result (λ origin. origin ≡ origin_named shape.now.slots name.now) }
{
    if let Some(at) = shape.slot_of(name)
        && let Some(slot) = shape.slots().get(at as usize)
    {
        return Ok(Origin {
            slot: Some(at as usize),
            missing: slot.added.copied(alloc)?,
        });
    }
    Ok(Origin {
        slot: None,
        missing: Value::Null,
    })
}

/// Where the columns of these names stand in a table.
pub(crate) fn origins_named(
    alloc: Global,
    shape: &Shape,
    names: &NameList,
) -> Result<ListOf<Origin>, NoMemory>
    ensures { IfOk result (λ origins. origins ≡ origins_named shape.now.slots names.now) }
{
    let mut origins = ListOf::new(alloc);
    for name in names.as_slice() {
        origins.push(origin_named(alloc, shape, name)?)?;
    }
    Ok(origins)
}

/// What is stored in a slot, if anything is.
fn stored_at(slot: Option<usize>, stored: &[Value]) -> Option<&Value>
    ensures { option_copied result ≡ stored_at stored.now slot }
{
    match slot {
        Some(at) => stored.get(at),
        None => None,
    }
}

/// The value of a column in a row with these stored values.
fn value_from(alloc: Global, origin: &Origin, stored: &[Value]) -> Result<Value, NoMemory>
    ensures { IfOk result (λ value. value ≡ value_from stored.now origin.now) }
{
    match stored_at(origin.slot, stored) {
        Some(value) => value.copied(alloc),
        None => origin.missing.copied(alloc),
    }
}

/// The columns' values in a row with these stored values.
pub(crate) fn row_from(alloc: Global, origins: &[Origin], stored: &[Value]) -> Result<Row, NoMemory>
    ensures { IfOk result (λ row. row ≡ row_from origins.now stored.now) }
{
    let mut row = ListOf::new(alloc);
    for origin in origins {
        row.push(value_from(alloc, origin, stored)?)?;
    }
    Ok(row)
}
