//! The tables as they are kept: one list of all that was ever made, which serves every reader.
ghost use Rattle.std.specs.Prelude.{◌≡◌, ◌<◌, ◌≤◌, ◌+◌, ◌++◌, ◌∷◌, [], true, map, length, drop, slice_get, slice_set, option_map, vec_len, Some, IfOk, IfSome, IfNone, OnOk, OnErr, get_or};
ghost use Rattle.al_history.specs.Change.{filled, shape_of};
ghost use Rattle.al_history.specs.Database.{named, has_column};
ghost use Rattle.al_history.specs.Query.{answer};
ghost use Rattle.al_history.specs.Store.{shown_columns, shown_values, shown_table, shown, spread, slots_of};
ghost use Rattle.al_engine.specs.Stored.{slot_of, row_of, kept_of, all_kept, seen_by, answers, names_of, with_stored_row, with_stored_column, makers_in, is_among, first_among};

use al_history::{Column, Shape};
use al_values::{Copied, ListOf, Name, NameList, NoMemory, Row, RowList, Steps, Value};
use std::alloc::Global;
use std::sync::ledger::Ledger;

/// A column as it is kept.
#[derive(Debug, Drop)]
pub struct StoredColumn {
    /// The transaction that made it.
    pub maker: u32,
    /// The column.
    pub column: Column,
}

/// A row as it is kept. Columns that were added after it have no value here: it has their defaults.
#[derive(Debug, Drop)]
pub struct StoredRow {
    /// Its number, which is the place of its Add in the journal.
    pub number: u32,
    /// The transaction that made it.
    pub maker: u32,
    /// A value for each column that its table had then, those included that its maker didn't see.
    pub values: Row,
}

/// A table as it is kept.
#[derive(Debug, Drop)]
pub struct StoredTable {
    /// Its number, which is the place of its Make in the journal.
    pub number: u32,
    /// The transaction that made it.
    pub maker: u32,
    /// Its name.
    pub name: Name,
    /// All columns that it ever got, in order.
    pub columns: ListOf<StoredColumn>,
    /// All rows that it ever got, in order.
    pub rows: ListOf<StoredRow>,
}

/// Who reads: a transaction, which sees what it made itself and what is committed.
#[derive(Clone, Copy, Debug)]
pub struct Reader<'a> {
    /// The transaction.
    pub xact: u32,
    /// For each place of the journal, whether the transaction of that place is committed. A place past its end has none.
    pub committed: &'a [bool],
}

impl<'a> Reader<'a> {
    /// Whether it sees what a transaction made.
    pub fn sees(&self, maker: u32) -> bool
        ensures { result ≡ seen_by (Some self.now.xact) self.now.committed.now maker }
    {
        if self.xact == maker {
            return true;
        }
        match self.committed.get(maker as usize) {
            Some(committed) => *committed,
            None => false,
        }
    }
}

/// The place of the table of a name, among the tables that the reader sees.
pub fn position_of(tables: &[StoredTable], reader: &Reader<'_>, name: &Name) -> Option<usize>
    ensures none { let f = seen_by (Some reader.now.xact) reader.now.committed.now in IfNone result (named (shown f (all_kept tables.now)) name.now ≡ None) }
    ensures within { IfSome result (λ at. at < length tables.now) }
    ensures found { let f = seen_by (Some reader.now.xact) reader.now.committed.now in IfSome result (λ at. option_map (λ t. shown_table f (kept_of t)) (slice_get tables.now at) ≡ named (shown f (all_kept tables.now)) name.now) }
    ensures seen { let f = seen_by (Some reader.now.xact) reader.now.committed.now in IfSome result (λ at. IfSome (slice_get tables.now at) (λ t. f t.maker ≡ true)) }
{
    for (at, table) in tables.iter().enumerate() {
        if reader.sees(table.maker) {
            if table.name == *name {
                return Some(at);
            }
        }
    }
    None
}

/// The columns of a table that the reader sees.
pub fn columns_of(
    alloc: Global,
    reader: &Reader<'_>,
    table: &StoredTable,
) -> Result<Shape, NoMemory>
    ensures { let f = seen_by (Some reader.now.xact) reader.now.committed.now in IfOk result (λ shape. shape ≡ shown_columns f (kept_of table.now).slots) }
{
    seen_columns(alloc, reader, table.columns.as_slice())
}

fn seen_columns(
    alloc: Global,
    reader: &Reader<'_>,
    columns: &[StoredColumn],
) -> Result<Shape, NoMemory>
    ensures { let f = seen_by (Some reader.now.xact) reader.now.committed.now in IfOk result (λ shape. shape ≡ shown_columns f (map slot_of columns.now)) }
{
    let mut shape = ListOf::new(alloc);
    for column in columns {
        if reader.sees(column.maker) {
            shape.push(column.column.copied(alloc)?)?;
        }
    }
    Ok(shape)
}

/// The values of all rows of a table that the reader sees, in the columns that it sees. A row has the defaults of the columns
/// that were added after it. Each row that is kept is a step, seen or not.
pub fn rows_of<L: Ledger>(
    alloc: Global,
    reader: &Reader<'_>,
    table: &StoredTable,
    steps: &mut Steps<L>,
) -> Result<RowList, NoMemory>
    ensures rows { let f = seen_by (Some reader.now.xact) reader.now.committed.now in IfOk result (λ rows. rows ≡ answer (shown_table f (kept_of table.now))) }
    ensures counted { OnOk result (steps.new ≡ steps.old + length table.now.rows) }
    ensures grows { steps.old ≤ steps.new }
    ensures bounded { steps.new ≤ steps.old + length table.now.rows }
{
    seen_rows(
        alloc,
        reader,
        table.columns.as_slice(),
        table.rows.as_slice(),
        steps,
    )
}

fn seen_rows<L: Ledger>(
    alloc: Global,
    reader: &Reader<'_>,
    columns: &[StoredColumn],
    rows: &[StoredRow],
    steps: &mut Steps<L>,
) -> Result<RowList, NoMemory>
    ensures rows { let f = seen_by (Some reader.now.xact) reader.now.committed.now in IfOk result (λ all. all ≡ answers f (map slot_of columns.now) (map row_of rows.now)) }
    ensures counted { OnOk result (steps.new ≡ steps.old + length rows.now) }
    ensures grows { steps.old ≤ steps.new }
    ensures bounded { steps.new ≤ steps.old + length rows.now }
{
    let mut all = ListOf::new(alloc);
    for row in rows {
        steps.tick();
        if reader.sees(row.maker) {
            all.push(seen_values(alloc, reader, columns, &row.values)?)?;
        }
    }
    Ok(all)
}

/// A row's values in the columns that the reader sees.
fn seen_values(
    alloc: Global,
    reader: &Reader<'_>,
    columns: &[StoredColumn],
    row: &Row,
) -> Result<Row, NoMemory>
    ensures { let f = seen_by (Some reader.now.xact) reader.now.committed.now in IfOk result (λ values. values ≡ shown_values f (map slot_of columns.now) row.now) }
{
    let mut values = ListOf::new(alloc);
    for (at, column) in columns.iter().enumerate() {
        if reader.sees(column.maker) {
            values.push(value_at(row, at, column).copied(alloc)?)?;
        }
    }
    Ok(values)
}

/// The value at a place of a row, or the column's default past its end.
fn value_at<'a>(row: &'a Row, at: usize, column: &'a StoredColumn) -> &'a Value
    ensures { result.now ≡ get_or row.now at column.now.column.default }
{
    match row.get(at) {
        Some(value) => value,
        None => &column.column.default,
    }
}

/// A row over all columns: its values stand in the columns that the reader sees, the others have their defaults.
pub fn spread(
    alloc: Global,
    reader: &Reader<'_>,
    columns: &[StoredColumn],
    row: &Row,
) -> Result<Row, NoMemory>
    ensures { let f = seen_by (Some reader.now.xact) reader.now.committed.now in IfOk result (λ values. values ≡ spread f (map slot_of columns.now) row.now) }
{
    let mut values = ListOf::new(alloc);
    let mut next = 0;
    for column in columns {
        if next < row.len() && reader.sees(column.maker) {
            values.push(row.as_slice()[next].copied(alloc)?)?;
            next += 1;
        } else {
            values.push(column.column.default.copied(alloc)?)?;
        }
    }
    Ok(values)
}

/// Whether a column has the name.
pub fn has_column(columns: &[Column], name: &Name) -> bool
    ensures { result ≡ has_column columns.now name.now }
{
    columns.iter().any(|column| column.name == *name)
}

/// The columns of a new table.
pub fn shape_of(alloc: Global, names: &[Name]) -> Result<Shape, NoMemory>
    ensures { IfOk result (λ shape. shape ≡ shape_of names.now) }
{
    let mut shape = ListOf::new(alloc);
    for name in names {
        let name = name.copied(alloc)?;
        shape.push(Column {
            name,
            default: Value::Null,
        })?;
    }
    Ok(shape)
}

/// The names of the columns.
pub fn names_of(alloc: Global, columns: &[Column]) -> Result<NameList, NoMemory>
    ensures { IfOk result (λ names. names ≡ names_of columns.now) }
{
    let mut names = ListOf::new(alloc);
    for column in columns {
        names.push(column.name.copied(alloc)?)?;
    }
    Ok(names)
}

/// A row with these values, and with the defaults of the columns past their end.
pub fn filled(alloc: Global, columns: &[Column], written: &Row) -> Result<Row, NoMemory>
    requires { length written.now ≤ length columns.now }
    ensures { IfOk result (λ row. row ≡ filled columns.now written.now) }
{
    let mut row = written.copied(alloc)?;
    push_defaults(alloc, &columns[written.len()..], &mut row)?;
    Ok(row)
}

fn push_defaults(alloc: Global, columns: &[Column], row: &mut Row) -> Result<(), NoMemory>
    ensures { OnOk result (row.new ≡ row.old ++ map (λ c. c.default) columns.now) }
{
    for column in columns {
        row.push(column.default.copied(alloc)?)?;
    }
    Ok(())
}

/// A new table of a transaction, with the columns of these names, and without rows.
pub fn new_table(
    alloc: Global,
    number: u32,
    maker: u32,
    name: &Name,
    columns: &[Name],
) -> Result<StoredTable, NoMemory>
    ensures { IfOk result (λ t. kept_of t ≡ record { number = number; maker = maker; name = name.now; slots = slots_of maker (shape_of columns.now); rows = [] }) }
{
    Ok(StoredTable {
        number,
        maker,
        name: name.copied(alloc)?,
        columns: new_columns(alloc, maker, columns)?,
        rows: ListOf::new(alloc),
    })
}

fn new_columns(alloc: Global, maker: u32, names: &[Name]) -> Result<ListOf<StoredColumn>, NoMemory>
    ensures { IfOk result (λ columns. map slot_of columns ≡ slots_of maker (shape_of names.now)) }
{
    let mut columns = ListOf::new(alloc);
    for name in names {
        let name = name.copied(alloc)?;
        let column = Column {
            name,
            default: Value::Null,
        };
        columns.push(StoredColumn { maker, column })?;
    }
    Ok(columns)
}

/// Puts a row at the end of the table at this place.
pub fn push_row(tables: &mut Vec<StoredTable>, at: usize, row: StoredRow) -> Result<(), NoMemory>
    requires { at < vec_len tables.old }
    ensures ok { OnOk result (IfSome (slice_get tables.old.items at) (λ t. tables.new.items ≡ slice_set tables.old.items at (with_stored_row row t))) }
    ensures err { OnErr result (tables.new.items ≡ tables.old.items) }
{
    let table = &mut tables[at];
    table.rows.push(row)
}

/// Puts a column at the end of those of the table at this place.
pub fn push_column(
    tables: &mut Vec<StoredTable>,
    at: usize,
    column: StoredColumn,
) -> Result<(), NoMemory>
    requires { at < vec_len tables.old }
    ensures ok { OnOk result (IfSome (slice_get tables.old.items at) (λ t. tables.new.items ≡ slice_set tables.old.items at (with_stored_column column t))) }
    ensures err { OnErr result (tables.new.items ≡ tables.old.items) }
{
    let table = &mut tables[at];
    table.columns.push(column)
}

/// The first transaction that is in the way of a new table's name: another's that is open and has made a table of the name.
/// What is given are the sessions' open transactions.
pub fn taker_of(
    tables: &[StoredTable],
    name: &Name,
    xact: u32,
    opened: &[Option<u32>],
) -> Option<u32>
    ensures { result ≡ first_among xact opened.now (makers_in tables.now name.now) }
{
    for table in tables {
        if table.name == *name {
            if table.maker != xact && is_among(opened, table.maker) {
                return Some(table.maker);
            }
        }
    }
    None
}

fn is_among(xacts: &[Option<u32>], xact: u32) -> bool
    ensures { result ≡ is_among xacts.now xact }
{
    xacts.iter().any(|own| *own == Some(xact))
}
