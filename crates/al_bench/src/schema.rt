//! Calls of al_schema.

use al_schema::{Shape, Slot};
use al_values::{Kind, Name, NoMemory, Row, Value};
use std::alloc::Global;

const COLUMNS: u32 = 10;

#[derive(Clone, Copy)]
pub enum Call {
    Nothing,
    Columns,
    RowOf,
}

pub fn call_of(word: &str) -> Option<Call> {
    match word {
        "nothing" => Some(Call::Nothing),
        "columns" => Some(Call::Columns),
        "row_of" => Some(Call::RowOf),
        _ => None,
    }
}

fn slot(alloc: Global) -> Result<Slot, NoMemory> {
    Ok(Slot {
        name: Name::new(alloc, "a")?,
        kind: Kind::Integer,
        default: Value::Null,
        added: Value::Int(7),
        not_null: false,
        own: true,
        dropped: false,
    })
}

/// A shape with ten columns.
pub fn shape(alloc: Global) -> Result<Shape, NoMemory> {
    let mut shape = Shape::new(alloc);
    for _ in 0..COLUMNS {
        shape = shape.add_column(alloc, slot(alloc)?)?;
    }
    Ok(shape)
}

fn row_width(alloc: Global, shape: &Shape, stored: &Row) -> Result<u64, NoMemory> {
    if stored.len() > shape.slots().len() {
        return Ok(0);
    }
    Ok(shape.row_of(alloc, stored)?.len() as u64)
}

/// Over a shape with ten columns, and a row that stores half of them.
pub fn calls(alloc: Global, call: Call, times: u32) -> Result<u64, NoMemory> {
    let shape = shape(alloc)?;
    let mut stored = Row::new(alloc);
    for number in 0..5 {
        stored.push(Value::Int(number))?;
    }
    let mut sum: u64 = 0;
    for _ in 0..times {
        sum = sum.wrapping_add(match call {
            Call::Nothing => 0,
            Call::Columns => shape.columns().len() as u64,
            Call::RowOf => row_width(alloc, &shape, &stored)?,
        });
    }
    Ok(sum)
}
