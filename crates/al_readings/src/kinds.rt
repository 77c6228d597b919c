use crate::evaluated::kind_on;
use al_expr::{TypeFault, Typed};
use al_statements::SqlFault;
use al_values::{Cant, Kind, Txt};
use std::alloc::Global;
use std::process::Abort;
use std::test::Fail;

// The kind of an expression.
#[derive(Clone, Copy, Debug, PartialEq, Eq)]
enum Found {
    Known(Kind),
    Untyped,
    WrongAt(u32),
    NoColumnAt(u32),
    Nothing,
}

fn found_on(alloc: Global, text: &str, a: Kind, b: Kind) -> Result<Found, Cant<SqlFault>> {
    Ok(match kind_on(alloc, text, a, b)? {
        Some(Ok(Typed::Known(kind))) => Found::Known(kind),
        Some(Ok(Typed::Untyped)) => Found::Untyped,
        Some(Err(TypeFault::WrongKind { place })) => Found::WrongAt(place),
        Some(Err(TypeFault::NoColumn { place })) => Found::NoColumnAt(place),
        None => Found::Nothing,
    })
}

#[test]
fn operators(rt: HostRuntime) -> Result<(), Fail> {
    let wrong = Found::WrongAt(9);
    let truth = Found::Known(Kind::Boolean);
    let rows = [
        (
            "SELECT a + b",
            Kind::Smallint,
            Kind::Smallint,
            Found::Known(Kind::Smallint),
        ),
        (
            "SELECT a + b",
            Kind::Smallint,
            Kind::Integer,
            Found::Known(Kind::Integer),
        ),
        (
            "SELECT a + b",
            Kind::Bigint,
            Kind::Integer,
            Found::Known(Kind::Bigint),
        ),
        (
            "SELECT a + b",
            Kind::Date,
            Kind::Bigint,
            Found::Known(Kind::Date),
        ),
        (
            "SELECT a + b",
            Kind::Smallint,
            Kind::Date,
            Found::Known(Kind::Date),
        ),
        ("SELECT a + b", Kind::Date, Kind::Date, wrong),
        (
            "SELECT a - b",
            Kind::Date,
            Kind::Date,
            Found::Known(Kind::Integer),
        ),
        ("SELECT a - b", Kind::Integer, Kind::Date, wrong),
        ("SELECT a * b", Kind::Date, Kind::Integer, wrong),
        ("SELECT a + b", Kind::Text, Kind::Text, wrong),
        ("SELECT a = b", Kind::Text, Kind::Varchar(3), truth),
        ("SELECT a = b", Kind::Text, Kind::Integer, wrong),
        ("SELECT a = b", Kind::Boolean, Kind::Boolean, truth),
        ("SELECT a = b", Kind::Boolean, Kind::Integer, wrong),
        ("SELECT a = b", Kind::Smallint, Kind::Bigint, truth),
        (
            "SELECT a || b",
            Kind::Varchar(2),
            Kind::Text,
            Found::Known(Kind::Text),
        ),
        ("SELECT a || b", Kind::Text, Kind::Integer, wrong),
        ("SELECT a AND b", Kind::Boolean, Kind::Boolean, truth),
        ("SELECT a OR b", Kind::Integer, Kind::Boolean, wrong),
        (
            "SELECT a BETWEEN b AND b",
            Kind::Smallint,
            Kind::Bigint,
            truth,
        ),
        (
            "SELECT a NOT BETWEEN b AND b",
            Kind::Date,
            Kind::Bigint,
            wrong,
        ),
        ("SELECT a IN (b, a)", Kind::Text, Kind::Text, truth),
        ("SELECT a NOT IN (b)", Kind::Text, Kind::Date, wrong),
    ];
    for (text, a, b, wanted) in rows {
        let found = found_on(rt.alloc(), text, a, b)?;
        assert_eq!(rt; found, wanted, "{text} {a:?} {b:?}");
    }
    Ok(())
}

fn cast_to(alloc: Global, from: Kind, name: &str) -> Result<Found, Cant<SqlFault>> {
    let text = Txt::from_string(format!(in alloc; "SELECT a::{name}")?);
    found_on(alloc, text.as_str(), from, from)
}

#[test]
fn casts(rt: HostRuntime) -> Result<(), Fail> {
    let kinds = [
        ("smallint", Kind::Smallint),
        ("integer", Kind::Integer),
        ("bigint", Kind::Bigint),
        ("boolean", Kind::Boolean),
        ("text", Kind::Text),
        ("varchar(4)", Kind::Varchar(4)),
        ("date", Kind::Date),
    ];
    // Into each of these.
    let rows = [
        (Kind::Smallint, [true, true, true, false, true, true, false]),
        (Kind::Integer, [true, true, true, true, true, true, false]),
        (Kind::Bigint, [true, true, true, false, true, true, false]),
        (Kind::Boolean, [false, true, false, true, true, true, false]),
        (Kind::Text, [true, true, true, true, true, true, true]),
        (Kind::Varchar(9), [true, true, true, true, true, true, true]),
        (Kind::Date, [false, false, false, false, true, true, true]),
    ];
    for (from, allowed) in rows {
        for ((name, to), is_allowed) in kinds.iter().zip(allowed.iter()) {
            let found = cast_to(rt.alloc(), from, name)?;
            let wanted = if *is_allowed {
                Found::Known(*to)
            } else {
                Found::WrongAt(8)
            };
            assert_eq!(rt; found, wanted, "{from:?} {to:?}");
        }
    }
    Ok(())
}

#[test]
fn names(rt: HostRuntime) -> Result<(), Fail> {
    let rows = [
        ("smallint", Kind::Smallint),
        ("int2", Kind::Smallint),
        ("integer", Kind::Integer),
        ("INT", Kind::Integer),
        ("int4", Kind::Integer),
        ("bigint", Kind::Bigint),
        ("int8", Kind::Bigint),
        ("boolean", Kind::Boolean),
        ("bool", Kind::Boolean),
        ("text", Kind::Text),
        ("date", Kind::Date),
        ("varchar", Kind::Text),
        ("character varying", Kind::Text),
        ("varchar(1)", Kind::Varchar(1)),
        ("character varying (10485760)", Kind::Varchar(10_485_760)),
    ];
    for (name, kind) in rows {
        let found = cast_to(rt.alloc(), Kind::Text, name)?;
        assert_eq!(rt; found, Found::Known(kind), "{name}");
    }
    Ok(())
}

// Tests that expressions have these kinds where the columns `a` and `b` are integers.
fn have_kinds(rt: &impl Abort, alloc: Global, rows: &[(&str, Found)]) -> Result<(), Fail> {
    for (text, wanted) in rows {
        let text = Txt::new(alloc, text)?;
        let found = found_on(alloc, text.as_str(), Kind::Integer, Kind::Integer)?;
        assert_eq!(rt; found, *wanted, "{text}");
    }
    Ok(())
}

#[test]
fn without_columns(rt: HostRuntime) -> Result<(), Fail> {
    let rows = [
        ("SELECT 0", Found::Known(Kind::Integer)),
        ("SELECT 2147483647", Found::Known(Kind::Integer)),
        ("SELECT 2147483648", Found::Known(Kind::Bigint)),
        ("SELECT NULL", Found::Untyped),
        ("SELECT '1'", Found::Untyped),
        ("SELECT TRUE", Found::Known(Kind::Boolean)),
        ("SELECT DATE 'x'", Found::Known(Kind::Date)),
        ("SELECT coalesce(NULL, 'x')", Found::Known(Kind::Text)),
        ("SELECT coalesce(1, 2147483648)", Found::Known(Kind::Bigint)),
        ("SELECT coalesce(1, TRUE)", Found::WrongAt(7)),
        ("SELECT -NULL", Found::WrongAt(7)),
        ("SELECT abs(NULL)", Found::WrongAt(7)),
        ("SELECT length(1)", Found::WrongAt(7)),
        ("SELECT length(NULL)", Found::Known(Kind::Integer)),
        ("SELECT NULL + '1'", Found::WrongAt(12)),
        ("SELECT DATE '2024-01-01' + '5'", Found::WrongAt(25)),
        (
            "SELECT DATE '2024-01-01' + 5 + 6 + DATE '2024-01-01'",
            Found::WrongAt(33),
        ),
        ("SELECT 'a' = 'b'", Found::Known(Kind::Boolean)),
        ("SELECT 'a' || NULL", Found::Known(Kind::Text)),
        ("SELECT 1 IS NULL", Found::Known(Kind::Boolean)),
        ("SELECT CAST(1 AS date)", Found::WrongAt(7)),
    ];
    have_kinds(&rt, rt.alloc(), &rows)
}

#[test]
fn first_fault_in_reading_order(rt: HostRuntime) -> Result<(), Fail> {
    let rows = [
        ("SELECT 1 || 2 AND zz", Found::WrongAt(9)),
        ("SELECT zz AND 1 || 2", Found::NoColumnAt(7)),
        ("SELECT -(1 AND TRUE)", Found::WrongAt(11)),
        ("SELECT a + zz", Found::NoColumnAt(11)),
        ("SELECT a + \"A\"", Found::NoColumnAt(11)),
    ];
    have_kinds(&rt, rt.alloc(), &rows)
}
