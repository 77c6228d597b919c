//! What the entries of a journal weigh, and whether one more fits the limit of its run.
ghost use Rattle.std.specs.Prelude.{◌≡◌, ◌+◌, ◌∷◌, [], IfOk};
ghost use Rattle.al_history.specs.Weight.{text_bytes, row_weight, rows_weight, read_weight};
ghost use Rattle.al_engine.specs.Kept.{over_by};

use al_history::{Cause, RunLimit};
use al_values::{Name, NoMemory, Row, Value};

/// The cause for which an entry of this weight can't be noted, where what is noted so far and it weigh more than the limit.
pub fn over(limit: u32, so_far: u64, next: u64) -> Result<Option<Cause>, NoMemory>
    ensures { IfOk result (λ cause. cause ≡ over_by limit so_far next) }
{
    let count = plus(so_far, next)?;
    if count <= u64::from(limit) {
        return Ok(None);
    }
    let what = RunLimit::Journal;
    Ok(Some(Cause::Limit { what, count }))
}

/// What a row weighs: its number of values, and a sixteenth of the bytes of its texts.
pub fn row_weight(row: &[Value]) -> Result<u64, NoMemory>
    ensures { IfOk result (λ weight. weight ≡ row_weight row.now) }
{
    let bytes = text_bytes(row)?;
    plus(row.len() as u64, bytes / 16)
}

/// What rows weigh that are read: each weighs 1 more.
fn rows_weight(rows: &[Row]) -> Result<u64, NoMemory>
    ensures { IfOk result (λ weight. weight ≡ rows_weight rows.now) }
{
    let mut weight = 0;
    for row in rows {
        let own = plus(1, row_weight(row.as_slice())?)?;
        weight = plus(weight, own)?;
    }
    Ok(weight)
}

/// What it weighs to read these names and rows.
pub fn read_weight(names: &[Name], rows: &[Row]) -> Result<u64, NoMemory>
    ensures { IfOk result (λ weight. weight ≡ read_weight names.now rows.now) }
{
    let head = plus(1, names.len() as u64)?;
    plus(head, rows_weight(rows)?)
}

/// The bytes of the texts in a row.
fn text_bytes(row: &[Value]) -> Result<u64, NoMemory>
    ensures { IfOk result (λ bytes. bytes ≡ text_bytes row.now) }
{
    let mut bytes = 0;
    for value in row {
        bytes = plus(bytes, text_len(value))?;
    }
    Ok(bytes)
}

/// The bytes of a text; a value of another kind has none.
fn text_len(value: &Value) -> u64
    ensures { result ≡ text_bytes (value.now ∷ []) }
{
    match value {
        Value::Text(text) => text.as_bytes().len() as u64,
        _ => 0,
    }
}

/// Two weights together. There is no number for more than 2^64 - 1.
pub fn plus(one: u64, other: u64) -> Result<u64, NoMemory>
    ensures { IfOk result (λ sum. sum ≡ one + other) }
{
    match one.checked_add(other) {
        Some(sum) => Ok(sum),
        None => Err(NoMemory),
    }
}
