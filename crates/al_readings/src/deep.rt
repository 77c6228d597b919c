use crate::evaluated::value_of;
use crate::reading::nested;
use crate::trees::first_output;
use al_expr::{ColumnList, Expr, Typed, kind_of, same, without_places};
use al_sql::read_script;
use al_statements::SqlFault;
use al_values::{Cant, Copied, Kind, NoMemory, Txt};
use std::alloc::Global;
use std::test::Fail;

// 200 levels, each of all precedences.
fn deep(alloc: Global) -> Result<Txt, NoMemory> {
    let level = "FALSE OR TRUE AND TRUE = 1 BETWEEN 1 AND 1 + 1 * (";
    nested(
        alloc,
        ["SELECT ", level, "TRUE", ")::integer IS NULL", ""],
        200,
    )
}

// A row of 30,000 operators.
fn long(alloc: Global) -> Result<Txt, NoMemory> {
    nested(alloc, ["SELECT 0", "+1", "", "", ""], 30_000)
}

// Whether a copy is the same, and the kind without places.
fn held(alloc: Global, expr: &Expr) -> Result<(bool, Option<Typed>), NoMemory> {
    let copy = expr.copied(alloc)?;
    let unplaced = without_places(alloc, expr)?;
    Ok((
        same(&copy, expr),
        kind_of(&unplaced, &ColumnList::new(alloc)).ok(),
    ))
}

fn held_text(alloc: Global, text: &Txt) -> Result<(bool, Option<Typed>), Cant<SqlFault>> {
    let script = read_script(alloc, text)?;
    match first_output(&script) {
        Some(expr) => Ok(held(alloc, expr)?),
        None => Ok((false, None)),
    }
}

#[test]
fn many_levels(rt: HostRuntime) -> Result<(), Fail> {
    let text = deep(rt.alloc())?;
    let found = held_text(rt.alloc(), &text)?;
    assert_eq!(rt; found, (true, Some(Typed::Known(Kind::Boolean))));
    let found = value_of(rt.alloc(), &text)?;
    assert_eq!(rt; found.as_str(), "f");
    Ok(())
}

#[test]
fn many_operators(rt: HostRuntime) -> Result<(), Fail> {
    let text = long(rt.alloc())?;
    let found = held_text(rt.alloc(), &text)?;
    assert_eq!(rt; found, (true, Some(Typed::Known(Kind::Integer))));
    let found = value_of(rt.alloc(), &text)?;
    assert_eq!(rt; found.as_str(), "30000");
    Ok(())
}
