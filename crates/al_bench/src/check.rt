//! A CHECK on rows of two numbers.

use al_expr::{
    Arithmetic, Bound, Column, ColumnList, Comparison, Expr, Operator, Prefix, bind_condition,
    truth_of, truth_of_bound,
};
use al_values::{Cant, Kind, Name, NoMemory, Row, RowList, Tri, Value};
use sqlite_items::{Boxed, Items};
use std::alloc::Global;

/// How a CHECK stands beside the rows.
#[derive(Clone, Copy)]
pub enum Form {
    /// Its columns are named.
    Named,
    /// Its columns were bound to their places.
    Bound,
}

/// Evaluates a CHECK of ten nodes on so many rows, as often, and gives how many rows passed, all together.
pub fn checks(alloc: Global, form: Form, rows: u32, times: u32) -> Result<u64, NoMemory> {
    match form {
        Form::Named => named_checks(alloc, rows, times),
        Form::Bound => bound_checks(alloc, rows, times),
    }
}

fn named_checks(alloc: Global, rows: u32, times: u32) -> Result<u64, NoMemory> {
    let check = check(alloc)?;
    let columns = columns(alloc)?;
    let rows = rows_of(alloc, rows)?;
    let mut passed: u64 = 0;
    for _ in 0..times {
        passed = passed.wrapping_add(passing(alloc, &check, &columns, &rows)?);
    }
    Ok(passed)
}

fn bound_checks(alloc: Global, rows: u32, times: u32) -> Result<u64, NoMemory> {
    let check = bound_check(alloc)?;
    let rows = rows_of(alloc, rows)?;
    let mut passed: u64 = 0;
    for _ in 0..times {
        passed = passed.wrapping_add(passing_bound(alloc, &check, &rows)?);
    }
    Ok(passed)
}

fn bound_check(alloc: Global) -> Result<Bound, NoMemory> {
    let check = check(alloc)?;
    let columns = columns(alloc)?;
    bind_condition(alloc, &check, &columns)
}

fn passing(
    alloc: Global,
    check: &Expr,
    columns: &ColumnList,
    rows: &RowList,
) -> Result<u64, NoMemory> {
    let mut passed: u64 = 0;
    for row in rows.as_slice() {
        match truth_of(alloc, check, columns, row) {
            Ok(Tri::Yes) => passed = passed.wrapping_add(1),
            Ok(_) | Err(Cant::Why(_)) => {}
            Err(Cant::NoMemory) => return Err(NoMemory),
        }
    }
    Ok(passed)
}

fn passing_bound(alloc: Global, check: &Bound, rows: &RowList) -> Result<u64, NoMemory> {
    let mut passed: u64 = 0;
    for row in rows.as_slice() {
        match truth_of_bound(alloc, check, row) {
            Ok(Tri::Yes) => passed = passed.wrapping_add(1),
            Ok(_) | Err(Cant::Why(_)) => {}
            Err(Cant::NoMemory) => return Err(NoMemory),
        }
    }
    Ok(passed)
}

/// `a + b > 0 AND NOT a < 0`
fn check(alloc: Global) -> Result<Expr, NoMemory> {
    let sum = binary(
        alloc,
        named(alloc, "a")?,
        Operator::Calculate(Arithmetic::Add),
        named(alloc, "b")?,
    )?;
    let positive = binary(
        alloc,
        sum,
        Operator::Compare(Comparison::Greater),
        Expr::Literal(0, Value::Int(0)),
    )?;
    let negative = binary(
        alloc,
        named(alloc, "a")?,
        Operator::Compare(Comparison::Less),
        Expr::Literal(0, Value::Int(0)),
    )?;
    binary(alloc, positive, Operator::And, denied(alloc, negative)?)
}

fn named(alloc: Global, name: &str) -> Result<Expr, NoMemory> {
    Ok(Expr::Column(0, Name::new(alloc, name)?))
}

fn binary(alloc: Global, left: Expr, operator: Operator, right: Expr) -> Result<Expr, NoMemory> {
    let left = Boxed::new(alloc, left)?;
    let mut links = Items::new(alloc);
    links.push((0, operator, right))?;
    Ok(Expr::Chain(left, links))
}

fn denied(alloc: Global, operand: Expr) -> Result<Expr, NoMemory> {
    let operand = Boxed::new(alloc, operand)?;
    let mut prefixes = Items::new(alloc);
    prefixes.push((0, Prefix::Not))?;
    Ok(Expr::Prefixed(operand, prefixes))
}

fn columns(alloc: Global) -> Result<ColumnList, NoMemory> {
    let kind = Kind::Integer;
    let mut columns = ColumnList::new(alloc);
    let name = Name::new(alloc, "a")?;
    columns.push(Column { name, kind })?;
    let name = Name::new(alloc, "b")?;
    columns.push(Column { name, kind })?;
    Ok(columns)
}

fn rows_of(alloc: Global, count: u32) -> Result<RowList, NoMemory> {
    let mut rows = RowList::new(alloc);
    for number in 0..count {
        let mut row = Row::new(alloc);
        row.push(Value::Int(i64::from(number)))?;
        row.push(Value::Int(i64::from(number % 1000)))?;
        rows.push(row)?;
    }
    Ok(rows)
}
