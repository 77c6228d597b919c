//! What the first expression of a SELECT gives.

use crate::reading::script_of;
use crate::trees::first_output;
use al_expr::{
    Column, ColumnList, EvalFault, Expr, TypeFault, Typed, bind_condition, bind_output,
    bind_stored, eval, eval_as, eval_bound, kind_of, truth_of, truth_of_bound,
};
use al_statements::SqlFault;
use al_values::{Cant, Kind, Name, NoMemory, Row, Tri, Txt, Value, print};
use std::alloc::Global;

fn column(alloc: Global, name: &str, kind: Kind) -> Result<Column, NoMemory> {
    Ok(Column {
        name: Name::new(alloc, name)?,
        kind,
    })
}

/// The columns `a` and `b` of these kinds.
pub(crate) fn pair(alloc: Global, a: Kind, b: Kind) -> Result<ColumnList, NoMemory> {
    let mut columns = ColumnList::new(alloc);
    columns.push(column(alloc, "a", a)?)?;
    columns.push(column(alloc, "b", b)?)?;
    Ok(columns)
}

/// A row of two values.
pub(crate) fn row(alloc: Global, a: Value, b: Value) -> Result<Row, NoMemory> {
    let mut row = Row::new(alloc);
    row.push(a)?;
    row.push(b)?;
    Ok(row)
}

type Evaluated = Result<Value, Cant<EvalFault>>;

// A value as it is printed, `null`, or the fault.
fn text_of(alloc: Global, evaluated: Evaluated) -> Result<Txt, NoMemory> {
    match evaluated {
        Ok(Value::Null) => Txt::new(alloc, "null"),
        Ok(value) => print(alloc, &value),
        Err(Cant::Why(fault)) => Ok(Txt::from_string(format!(in alloc; "{fault:?}")?)),
        Err(Cant::NoMemory) => Err(NoMemory),
    }
}

// What both ways of evaluation give.
fn alike(alloc: Global, alone: Evaluated, bound: Evaluated) -> Result<Txt, NoMemory> {
    let alone = text_of(alloc, alone)?;
    let bound = text_of(alloc, bound)?;
    if alone.as_str() == bound.as_str() {
        Ok(alone)
    } else {
        Txt::new(alloc, "they differ")
    }
}

// What evaluation gives, alone and bound to the columns.
fn valued(alloc: Global, expr: &Expr, columns: &ColumnList, row: &Row) -> Result<Txt, NoMemory> {
    let bound = bind_output(alloc, expr, columns)?;
    alike(
        alloc,
        eval(alloc, expr, columns, row),
        eval_bound(alloc, &bound, row),
    )
}

fn value_in(
    alloc: Global,
    text: &Txt,
    columns: &ColumnList,
    row: &Row,
) -> Result<Txt, Cant<SqlFault>> {
    let script = al_sql::read_script(alloc, text)?;
    match first_output(&script) {
        Some(expr) => Ok(valued(alloc, expr, columns, row)?),
        None => Ok(Txt::new(alloc, "no expression")?),
    }
}

/// What an expression without columns gives.
pub(crate) fn value_of(alloc: Global, text: &Txt) -> Result<Txt, Cant<SqlFault>> {
    value_in(alloc, text, &ColumnList::new(alloc), &Row::new(alloc))
}

/// What an expression without columns gives, in short.
pub(crate) fn value(alloc: Global, text: &str) -> Result<Txt, Cant<SqlFault>> {
    let text = Txt::new(alloc, text)?;
    value_of(alloc, &text)
}

/// What an expression gives where the columns `a` and `b` have these kinds and numbers.
pub(crate) fn value_on(
    alloc: Global,
    text: &str,
    kinds: (Kind, Kind),
    values: (i64, i64),
) -> Result<Txt, Cant<SqlFault>> {
    let text = Txt::new(alloc, text)?;
    let columns = pair(alloc, kinds.0, kinds.1)?;
    let row = row(alloc, Value::Int(values.0), Value::Int(values.1))?;
    value_in(alloc, &text, &columns, &row)
}

/// What an expression gives where the column `a` is varchar(5), `b` is text, and they have these values.
pub(crate) fn value_on_texts(
    alloc: Global,
    text: &str,
    a: &str,
    b: &str,
) -> Result<Txt, Cant<SqlFault>> {
    let text = Txt::new(alloc, text)?;
    let columns = pair(alloc, Kind::Varchar(5), Kind::Text)?;
    let a = Txt::new(alloc, a)?;
    let b = Txt::new(alloc, b)?;
    let row = row(alloc, Value::Text(a), Value::Text(b))?;
    value_in(alloc, &text, &columns, &row)
}

fn kept(alloc: Global, expr: &Expr, kind: Kind) -> Result<Txt, NoMemory> {
    let columns = ColumnList::new(alloc);
    let row = Row::new(alloc);
    let bound = bind_stored(alloc, expr, &columns, kind)?;
    alike(
        alloc,
        eval_as(alloc, expr, &columns, &row, kind),
        eval_bound(alloc, &bound, &row),
    )
}

/// What is stored of an expression without columns in a column of the kind.
pub(crate) fn stored(alloc: Global, text: &Txt, kind: Kind) -> Result<Txt, Cant<SqlFault>> {
    let script = al_sql::read_script(alloc, text)?;
    match first_output(&script) {
        Some(expr) => Ok(kept(alloc, expr, kind)?),
        None => Ok(Txt::new(alloc, "no expression")?),
    }
}

/// What a condition is, alone and bound.
pub(crate) type Truths = (Result<Tri, Cant<EvalFault>>, Result<Tri, Cant<EvalFault>>);

fn truths(alloc: Global, expr: &Expr) -> Result<Truths, NoMemory> {
    let columns = ColumnList::new(alloc);
    let row = Row::new(alloc);
    let bound = bind_condition(alloc, expr, &columns)?;
    Ok((
        truth_of(alloc, expr, &columns, &row),
        truth_of_bound(alloc, &bound, &row),
    ))
}

/// What a condition without columns is.
pub(crate) fn truth(alloc: Global, text: &str) -> Result<Option<Truths>, Cant<SqlFault>> {
    let script = script_of(alloc, text)?;
    match first_output(&script) {
        Some(expr) => Ok(Some(truths(alloc, expr)?)),
        None => Ok(None),
    }
}

/// The kind of an expression where the columns `a` and `b` have these.
pub(crate) fn kind_on(
    alloc: Global,
    text: &str,
    a: Kind,
    b: Kind,
) -> Result<Option<Result<Typed, TypeFault>>, Cant<SqlFault>> {
    let script = script_of(alloc, text)?;
    let columns = pair(alloc, a, b)?;
    match first_output(&script) {
        Some(expr) => Ok(Some(kind_of(expr, &columns))),
        None => Ok(None),
    }
}
