use crate::evaluated::{pair, row, stored, truth, value_of, value_on_texts};
use crate::reading::{nested, script_of};
use al_expr::{ColumnList, EvalFault, Expr, eval, row_fits};
use al_statements::{Query, Script, SqlFault, Statement};
use al_values::{Cant, CastFault, Kind, Row, Tri, Txt, Value};
use std::alloc::Global;
use std::test::Fail;

fn stored_of(alloc: Global, text: &str, kind: Kind) -> Result<Txt, Cant<SqlFault>> {
    let text = Txt::new(alloc, text)?;
    stored(alloc, &text, kind)
}

#[test]
fn stored_values(rt: HostRuntime) -> Result<(), Fail> {
    let rows = [
        ("SELECT '5'", Kind::Integer, "5"),
        ("SELECT 'x'", Kind::Integer, "Cast(BadText)"),
        ("SELECT 'yes'", Kind::Boolean, "t"),
        ("SELECT 'abcd'", Kind::Varchar(3), "Cast(TooLong)"),
        ("SELECT 'abc  '", Kind::Varchar(3), "abc"),
        ("SELECT '2024-02-30'", Kind::Date, "Cast(BadDate)"),
        ("SELECT 70000", Kind::Smallint, "Cast(OutOfRange)"),
        ("SELECT 70000", Kind::Varchar(5), "70000"),
        ("SELECT TRUE", Kind::Text, "true"),
        ("SELECT NULL", Kind::Date, "null"),
        ("SELECT DATE '2024-02-29'", Kind::Text, "2024-02-29"),
        ("SELECT 1 / 0", Kind::Integer, "DivZero"),
    ];
    for (text, kind, wanted) in rows {
        let found = stored_of(rt.alloc(), text, kind)?;
        assert_eq!(rt; found.as_str(), wanted, "{text} {kind:?}");
    }
    Ok(())
}

// A literal of so many bytes, and what stands behind it.
fn long(alloc: Global, bytes: u32, behind: &str) -> Result<Txt, Cant<SqlFault>> {
    Ok(nested(alloc, ["SELECT '", "x", "'", "", behind], bytes)?)
}

fn long_value(alloc: Global, bytes: u32, behind: &str) -> Result<Txt, Cant<SqlFault>> {
    value_of(alloc, &long(alloc, bytes, behind)?)
}

fn long_stored(alloc: Global, bytes: u32, kind: Kind) -> Result<Txt, Cant<SqlFault>> {
    stored(alloc, &long(alloc, bytes, "")?, kind)
}

#[test]
fn limits_at_the_root(rt: HostRuntime) -> Result<(), Fail> {
    let fault = "TooLong { bytes: 8193 }";
    let rows = [
        (8_192, " IS NULL", "f"),
        (8_193, "", fault),
        (8_193, " IS NOT NULL", fault),
    ];
    for (bytes, behind, wanted) in rows {
        let found = long_value(rt.alloc(), bytes, behind)?;
        assert_eq!(rt; found.as_str(), wanted, "{bytes}");
    }
    let rows = [
        (Kind::Text, fault),
        (Kind::Varchar(9_000), fault),
        (Kind::Varchar(3), "Cast(TooLong)"),
    ];
    for (kind, wanted) in rows {
        let found = long_stored(rt.alloc(), 8_193, kind)?;
        assert_eq!(rt; found.as_str(), wanted, "{kind:?}");
    }
    Ok(())
}

#[test]
fn long_texts(rt: HostRuntime) -> Result<(), Fail> {
    let half = nested(rt.alloc(), ["", "a", "", "", ""], 4_096)?;
    let half = half.as_str();
    let rows = [
        ("SELECT length(b || b)", "", "8192"),
        ("SELECT b || b || a", "é", "TooLong { bytes: 8194 }"),
        ("SELECT length(a)", "né", "2"),
    ];
    for (text, a, wanted) in rows {
        let found = value_on_texts(rt.alloc(), text, a, half)?;
        assert_eq!(rt; found.as_str(), wanted, "{text}");
    }
    Ok(())
}

#[test]
fn conditions(rt: HostRuntime) -> Result<(), Fail> {
    let rows = [
        ("SELECT TRUE", Ok(Tri::Yes)),
        ("SELECT FALSE", Ok(Tri::No)),
        ("SELECT NULL", Ok(Tri::Unknown)),
        ("SELECT 'off'", Ok(Tri::No)),
        (
            "SELECT 'x'",
            Err(Cant::Why(EvalFault::Cast(CastFault::BadText))),
        ),
        ("SELECT 1 / 0 = 1", Err(Cant::Why(EvalFault::DivZero))),
    ];
    for (text, wanted) in rows {
        let found = truth(rt.alloc(), text)?;
        assert_eq!(rt; found, Some((wanted, wanted)), "{text}");
    }
    Ok(())
}

fn two_outputs(script: &Script) -> Option<(&Expr, &Expr)> {
    match script.as_slice() {
        [Statement::Select(Query::Row(outputs))] => match outputs.as_slice() {
            [first, second] => Some((&first.expr, &second.expr)),
            _ => None,
        },
        _ => None,
    }
}

fn value_alone(alloc: Global, expr: &Expr) -> Result<Value, Cant<EvalFault>> {
    eval(alloc, expr, &ColumnList::new(alloc), &Row::new(alloc))
}

// The row of a text's two values.
fn row_of(alloc: Global, script: &Script) -> Result<Row, Cant<EvalFault>> {
    match two_outputs(script) {
        Some((first, second)) => Ok(row(
            alloc,
            value_alone(alloc, first)?,
            value_alone(alloc, second)?,
        )?),
        None => Ok(Row::new(alloc)),
    }
}

// Whether the row of two values fits columns of these kinds, and whether an empty row does.
fn fits(alloc: Global, kinds: (Kind, Kind), text: &str) -> Result<(bool, bool), Fail> {
    let script = script_of(alloc, text)?;
    let columns = pair(alloc, kinds.0, kinds.1)?;
    let row = row_of(alloc, &script)?;
    Ok((
        row_fits(&columns, &row),
        row_fits(&columns, &Row::new(alloc)),
    ))
}

#[test]
fn rows_that_fit(rt: HostRuntime) -> Result<(), Fail> {
    let kinds = (Kind::Smallint, Kind::Varchar(3));
    let rows = [
        (kinds, "SELECT -32768, 'äöü'", true),
        (kinds, "SELECT NULL, NULL", true),
        (kinds, "SELECT 32768, NULL", false),
        (kinds, "SELECT NULL, 'abcd'", false),
        (kinds, "SELECT TRUE, NULL", false),
        ((Kind::Boolean, Kind::Date), "SELECT TRUE, 1", false),
    ];
    for (kinds, text, wanted) in rows {
        let found = fits(rt.alloc(), kinds, text)?;
        assert_eq!(rt; found, (wanted, false), "{text}");
    }
    Ok(())
}
