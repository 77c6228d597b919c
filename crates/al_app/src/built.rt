//! The statements that are built, out of those that are read.
ghost use Rattle.std.specs.Prelude.{[], Some, None, ◌≡◌, IfOk};
ghost use Rattle.al_statements.specs.declared.fault.SqlFault.TheVariants as faults;
ghost use Rattle.al_app.specs.Built.{all_from, value_of, slot_value, is_plain, column_name, default_of, created, row_of, inserted, is_whole, selected, added, changed, altered, built};
ghost use Rattle.al_app.specs.Scripts.{AreBuilt};

use al_expr::{Expr, eval_as, is_assignable, kind_of};
use al_history::{Column, Script, SqlFault, Statement};
use al_statements::{
    Alter, Change, ColumnDefinition, CreateTable, Element, Insert, InsertRows, Query, SelectList,
    Slot, Statement as Tree, Sub, TableQuery,
};
use al_values::{Cant, Copied, Kind, ListOf, Name, NameList, NoMemory, Row, Value};
use std::alloc::Global;

/// The value of an expression that names no column, as an integer column stores it; none where it has none.
fn value_of(alloc: Global, expr: &Expr) -> Result<Option<Value>, NoMemory>
    ensures { IfOk result (λ value. value ≡ value_of expr.now) }
{
    let columns = ListOf::new(alloc);
    let Ok(typed) = kind_of(expr, &columns) else {
        return Ok(None);
    };
    if !is_assignable(typed, Kind::Integer) {
        return Ok(None);
    }
    let row = ListOf::new(alloc);
    match eval_as(alloc, expr, &columns, &row, Kind::Integer) {
        Ok(value) => Ok(Some(value)),
        Err(Cant::Why(_)) => Ok(None),
        Err(Cant::NoMemory) => Err(NoMemory),
    }
}

fn slot_value(alloc: Global, slot: &Slot) -> Result<Option<Value>, NoMemory>
    ensures { IfOk result (λ value. value ≡ slot_value slot.now) }
{
    match slot {
        Slot::Value(expr) => value_of(alloc, expr),
        Slot::Default => Ok(None),
    }
}

fn slot_values(alloc: Global, slots: &[Slot]) -> Result<Option<Row>, NoMemory>
    ensures { IfOk result (λ row. row ≡ all_from slot_value [] slots.now) }
{
    let mut row = ListOf::new(alloc);
    for slot in slots {
        match slot_value(alloc, slot)? {
            Some(value) => row.push(value)?,
            None => return Ok(None),
        }
    }
    Ok(Some(row))
}

/// An integer column without constraints.
fn is_plain(column: &ColumnDefinition) -> bool
    ensures { result ≡ is_plain column.now }
{
    match column.kind {
        Kind::Integer => !column.not_null && column.constraints.is_empty(),
        _ => false,
    }
}

fn column_name(alloc: Global, element: &Element) -> Result<Option<Name>, NoMemory>
    ensures { IfOk result (λ name. name ≡ column_name element.now) }
{
    match element {
        Element::Column(column) => {
            if is_plain(column) && column.default.is_none() {
                return Ok(Some(column.name.copied(alloc)?));
            }
            Ok(None)
        }
        Element::Constraint(_) => Ok(None),
    }
}

fn column_names(alloc: Global, elements: &[Element]) -> Result<Option<NameList>, NoMemory>
    ensures { IfOk result (λ names. names ≡ all_from column_name [] elements.now) }
{
    let mut names = ListOf::new(alloc);
    for element in elements {
        match column_name(alloc, element)? {
            Some(name) => names.push(name)?,
            None => return Ok(None),
        }
    }
    Ok(Some(names))
}

fn default_of(alloc: Global, default: &Option<Expr>) -> Result<Option<Value>, NoMemory>
    ensures { IfOk result (λ value. value ≡ default_of default.now) }
{
    match default {
        None => Ok(Some(Value::Null)),
        Some(expr) => value_of(alloc, expr),
    }
}

fn created(alloc: Global, create: &CreateTable) -> Result<Option<Statement>, NoMemory>
    ensures { IfOk result (λ statement. statement ≡ created create.now) }
{
    if !create.parents.is_empty() {
        return Ok(None);
    }
    match column_names(alloc, create.elements.as_slice())? {
        None => Ok(None),
        Some(columns) => {
            let table = create.name.copied(alloc)?;
            Ok(Some(Statement::CreateTable { table, columns }))
        }
    }
}

fn row_of(alloc: Global, rows: &InsertRows) -> Result<Option<Row>, NoMemory>
    ensures { IfOk result (λ row. row ≡ row_of rows.now) }
{
    match rows {
        InsertRows::Values(tuples) => match tuples.as_slice() {
            [tuple] => slot_values(alloc, tuple.as_slice()),
            _ => Ok(None),
        },
        InsertRows::Series(_) => Ok(None),
    }
}

fn inserted(alloc: Global, insert: &Insert) -> Result<Option<Statement>, NoMemory>
    ensures { IfOk result (λ statement. statement ≡ inserted insert.now) }
{
    if insert.columns.is_some() {
        return Ok(None);
    }
    match row_of(alloc, &insert.rows)? {
        None => Ok(None),
        Some(values) => {
            let table = insert.table.copied(alloc)?;
            Ok(Some(Statement::Insert { table, values }))
        }
    }
}

/// Whether a query gives all columns of all rows of a table, and no more is asked of it.
fn is_whole(query: &TableQuery) -> bool
    ensures { result ≡ is_whole query.now }
{
    match query.list {
        SelectList::All => {
            !query.target.only
                && query.condition.is_none()
                && query.order.is_empty()
                && query.lock.is_none()
        }
        SelectList::Outputs(_) | SelectList::Aggregates(_) => false,
    }
}

fn selected(alloc: Global, query: &Query) -> Result<Option<Statement>, NoMemory>
    ensures { IfOk result (λ statement. statement ≡ selected query.now) }
{
    match query {
        Query::Row(_) => Ok(None),
        Query::Table(query) => {
            if !is_whole(query) {
                return Ok(None);
            }
            let table = query.target.name.copied(alloc)?;
            Ok(Some(Statement::Select { table }))
        }
    }
}

fn added(
    alloc: Global,
    table: &Name,
    column: &ColumnDefinition,
) -> Result<Option<Statement>, NoMemory>
    ensures { IfOk result (λ statement. statement ≡ added table.now column.now) }
{
    if !is_plain(column) {
        return Ok(None);
    }
    match default_of(alloc, &column.default)? {
        None => Ok(None),
        Some(default) => {
            let table = table.copied(alloc)?;
            let name = column.name.copied(alloc)?;
            let column = Column { name, default };
            Ok(Some(Statement::AddColumn { table, column }))
        }
    }
}

fn changed(alloc: Global, table: &Name, change: &Change) -> Result<Option<Statement>, NoMemory>
    ensures { IfOk result (λ statement. statement ≡ changed table.now change.now) }
{
    match change {
        Change::Rename(_) => Ok(None),
        Change::Subs(subs) => match subs.as_slice() {
            [Sub::AddColumn(column)] => added(alloc, table, column),
            _ => Ok(None),
        },
    }
}

fn altered(alloc: Global, alter: &Alter) -> Result<Option<Statement>, NoMemory>
    ensures { IfOk result (λ statement. statement ≡ altered alter.now) }
{
    if alter.target.only {
        return Ok(None);
    }
    changed(alloc, &alter.target.name, &alter.change)
}

/// What a statement says, where its form is built.
fn built(alloc: Global, tree: &Tree) -> Result<Option<Statement>, NoMemory>
    ensures { IfOk result (λ statement. statement ≡ built tree.now) }
{
    match tree {
        Tree::Begin(None) => Ok(Some(Statement::Begin)),
        Tree::Commit => Ok(Some(Statement::Commit)),
        Tree::Rollback => Ok(Some(Statement::Rollback)),
        Tree::CreateTable(create) => created(alloc, create),
        Tree::Insert(insert) => inserted(alloc, insert),
        Tree::Select(query) => selected(alloc, query),
        Tree::AlterTable(alter) => altered(alloc, alter),
        _ => Ok(None),
    }
}

fn all_built(alloc: Global, trees: &[Tree]) -> Result<Option<Script>, NoMemory>
    ensures { IfOk result (λ script. script ≡ all_from built [] trees.now) }
{
    let mut script = ListOf::new(alloc);
    for tree in trees {
        match built(alloc, tree)? {
            Some(statement) => script.push(statement)?,
            None => return Ok(None),
        }
    }
    Ok(Some(script))
}

/// The statements of a script, where all are built, or that there is one at its first byte that isn't.
pub fn built_script(alloc: Global, trees: &[Tree]) -> Result<Result<Script, SqlFault>, NoMemory>
    ensures { IfOk result (λ read. AreBuilt trees.now read) }
{
    match all_built(alloc, trees)? {
        Some(script) => Ok(Ok(script)),
        None => Ok(Err(SqlFault::NotInProfile { at: 0 })),
    }
}
