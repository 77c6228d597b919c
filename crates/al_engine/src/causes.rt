//! Why statements are refused.
ghost use Rattle.std.specs.Prelude.{◌≡◌, ℕ, List, [], Some, IfOk};
ghost use Rattle.al_history.specs.Cause.{first_of, create_cause, columns_cause, tables_cause, is_among, alter_cause, count_cause};
ghost use Rattle.al_history.specs.declared.statement.Statement.TheVariants as statements;
ghost use Rattle.al_history.specs.Store.{shown};
ghost use Rattle.al_engine.specs.Stored.{all_kept, seen_by, of_columns};

use crate::weights::plus;
use crate::stored::{Reader, StoredTable, has_column, position_of};
use al_history::{Cause, Column, RunLimit};
use al_values::{Copied, Name, NoMemory, count_of};
use std::alloc::Global;

/// Why a CREATE TABLE is refused: its name first, then its columns' names. Where an open transaction of another is in the way
/// of the name, nothing is said of the name.
pub fn create_cause(
    alloc: Global,
    tables: &[StoredTable],
    reader: &Reader<'_>,
    name: &Name,
    columns: &[Name],
    taker: Option<u32>,
) -> Result<Option<Cause>, NoMemory>
    ensures { let f = seen_by (Some reader.now.xact) reader.now.committed.now in IfOk result (λ cause. cause ≡ create_cause name.now columns.now taker (shown f (all_kept tables.now))) }
{
    if taker.is_some() {
        return columns_cause(alloc, columns);
    }
    if position_of(tables, reader, name).is_some() {
        return Ok(Some(Cause::TwiceTable {
            name: name.copied(alloc)?,
        }));
    }
    columns_cause(alloc, columns)
}

/// The most tables that are made in a run, those of aborted transactions counted.
const MOST_TABLES: usize = 500;

/// The most columns of a table.
const MOST_COLUMNS: usize = 200;

/// The first column whose name stood before, or that is one too many.
fn columns_cause(alloc: Global, names: &[Name]) -> Result<Option<Cause>, NoMemory>
    ensures { IfOk result (λ cause. cause ≡ columns_cause [] names.now) }
{
    for (at, name) in names.iter().enumerate() {
        if is_among(&names[..at], name) {
            return Ok(Some(Cause::TwiceColumn {
                name: name.copied(alloc)?,
            }));
        }
        if at >= MOST_COLUMNS {
            return Ok(Some(Cause::Limit {
                what: RunLimit::Columns,
                count: at as u64 + 1,
            }));
        }
    }
    Ok(None)
}

/// Why a table that would be made now, after so many, is one too many. Where an open transaction is in the way of its name, it isn't
/// made yet.
pub fn tables_cause(made: usize, taker: Option<u32>) -> Result<Option<Cause>, NoMemory>
    ensures { IfOk result (λ cause. (name : List ℕ) (columns : List (List ℕ)) → cause ≡ tables_cause (statements.CreateTable name columns) [] taker made) }
{
    if taker.is_some() {
        return Ok(None);
    }
    if made < MOST_TABLES {
        return Ok(None);
    }
    Ok(Some(Cause::Limit {
        what: RunLimit::Tables,
        count: plus(made as u64, 1)?,
    }))
}

fn is_among(names: &[Name], name: &Name) -> bool
    ensures { result ≡ is_among names.now name.now }
{
    names.iter().any(|other| *other == *name)
}

/// Why an INSERT of so many values into a table of these columns is refused.
pub fn count_cause(columns: &[Column], got: usize) -> Result<Option<Cause>, NoMemory>
    ensures { IfOk result (λ cause. cause ≡ count_cause got (Some (of_columns columns.now))) }
{
    let want = columns.len();
    if want >= got {
        return Ok(None);
    }
    Ok(Some(Cause::Count {
        want: count_of(want)?,
        got: count_of(got)?,
    }))
}

/// Why an ALTER TABLE that adds a column to a table of these columns is refused.
pub fn alter_cause(
    alloc: Global,
    columns: &[Column],
    column: &Column,
) -> Result<Option<Cause>, NoMemory>
    ensures { IfOk result (λ cause. cause ≡ alter_cause column.now (Some (of_columns columns.now))) }
{
    if has_column(columns, &column.name) {
        return Ok(Some(Cause::TwiceColumn {
            name: column.name.copied(alloc)?,
        }));
    }
    if columns.len() < MOST_COLUMNS {
        return Ok(None);
    }
    Ok(Some(Cause::Limit {
        what: RunLimit::Columns,
        count: columns.len() as u64 + 1,
    }))
}

/// The first of two causes.
pub fn first_of(first: Option<Cause>, cause: Option<Cause>) -> Option<Cause>
    ensures { result ≡ first_of first cause }
{
    match first {
        None => cause,
        found => found,
    }
}
