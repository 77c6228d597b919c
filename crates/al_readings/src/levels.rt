use crate::reading::Told::{Good, NotInProfile, Syntax};
use crate::reading::{Told, nested, told_by};
use al_values::NoMemory;
use std::alloc::Global;
use std::process::Abort;
use std::test::Fail;

fn told_nested(alloc: Global, parts: [&str; 5], count: u32) -> Result<Told, NoMemory> {
    told_by(alloc, &nested(alloc, parts, count)?)
}

// What 200 levels are told, and one more.
fn told_twice(alloc: Global, parts: [&str; 5]) -> Result<(Told, Told), NoMemory> {
    Ok((
        told_nested(alloc, parts, 200)?,
        told_nested(alloc, parts, 201)?,
    ))
}

// Tests that 200 levels are good, and one more is left out at this place.
fn end_at(rt: &impl Abort, alloc: Global, rows: &[([&str; 5], u32)]) -> Result<(), Fail> {
    for (parts, place) in rows {
        let found = told_twice(alloc, *parts)?;
        assert_eq!(rt; found, (Good, NotInProfile(*place)), "{place}");
    }
    Ok(())
}

#[test]
fn kinds_of_levels(rt: HostRuntime) -> Result<(), Fail> {
    let rows = [
        (["SELECT ", "(", "1", ")", ""], 207),
        (["SELECT ", "1 * (1 + ", "1", ")", ""], 1811),
        (["SELECT ", "NOT ", "a", "", ""], 807),
        (["SELECT ", "+", "1", "", ""], 207),
        (["SELECT ", "- ", "1", "", ""], 407),
        (["SELECT ", "CAST(", "1", " AS text)", ""], 1011),
        (["SELECT ", "coalesce(", "1", ")", ""], 1815),
        (["SELECT ", "coalesce (1, ", "1", ", 1)", ""], 2616),
        (["SELECT ", "abs(", "1", ")", ""], 810),
        (["SELECT ", "length(", "1", ")", ""], 1413),
        (["SELECT ", "1 IN (", "1", ")", ""], 1212),
        (["SELECT ", "1 NOT IN (1, ", "1", ", 1)", ""], 2616),
    ];
    end_at(&rt, rt.alloc(), &rows)
}

#[test]
fn places_of_expressions(rt: HostRuntime) -> Result<(), Fail> {
    let rows = [
        (["INSERT INTO t VALUES (", "(", "1", ")", ")"], 222),
        (
            [
                "INSERT INTO t SELECT ",
                "(",
                "1",
                ")",
                " FROM generate_series(1, 2) g",
            ],
            221,
        ),
        (["UPDATE t SET a = ", "(", "1", ")", ""], 217),
        (["DELETE FROM t WHERE ", "NOT ", "a", "", ""], 820),
        (
            ["SELECT * FROM t WHERE ", "(", "a", ")", " ORDER BY a"],
            222,
        ),
        (["SELECT min(", "(", "a", ")", ") FROM t"], 211),
        (["CREATE TABLE t (CHECK (", "(", "a", ")", "))"], 223),
        (["CREATE TABLE t (a int DEFAULT ", "(", "1", ")", ")"], 230),
        (["CREATE TABLE t (a int CHECK (", "(", "1", ")", "))"], 229),
        (["ALTER TABLE t ADD CHECK (", "(", "a", ")", ")"], 225),
        (
            ["ALTER TABLE t ALTER a SET DEFAULT ", "(", "1", ")", ""],
            234,
        ),
        (
            ["ALTER TABLE t ALTER a TYPE int USING ", "(", "a", ")", ""],
            237,
        ),
    ];
    end_at(&rt, rt.alloc(), &rows)
}

// In 200 parentheses.
#[test]
fn inside_the_last_level(rt: HostRuntime) -> Result<(), Fail> {
    let rows = [
        ("1 BETWEEN 1 AND 2", Good),
        ("1 NOT BETWEEN 1 AND 2", Good),
        ("1 IS NOT NULL IS NULL", Good),
        ("'a'::varchar(3)::text", Good),
        ("DATE '2024-02-29' + 1 * 2", Good),
        ("a AND b OR c", Good),
        ("NOT a", NotInProfile(207)),
        ("-1", NotInProfile(207)),
        ("1 + +1", NotInProfile(211)),
        ("a AND NOT b", NotInProfile(213)),
        ("(1)", NotInProfile(207)),
        ("abs(1)", NotInProfile(210)),
        ("CAST (1 AS int)", NotInProfile(212)),
        ("1 IN (1)", NotInProfile(212)),
        ("1 NOT IN (1)", NotInProfile(216)),
        ("f(1)", NotInProfile(207)),
        ("count(*)", NotInProfile(207)),
        ("1 (1)", Syntax(209)),
        ("CAST 1", Syntax(212)),
        ("1 NOT NULL", Syntax(213)),
        ("", Syntax(207)),
    ];
    for (inner, wanted) in rows {
        let found = told_nested(rt.alloc(), ["SELECT ", "(", inner, ")", ""], 200)?;
        assert_eq!(rt; found, wanted, "{inner:?}");
    }
    Ok(())
}

// A level ends with what it holds, and operators in a row open none.
#[test]
fn ended_levels(rt: HostRuntime) -> Result<(), Fail> {
    let rows = [
        ("NOT a AND ", ""),
        ("NOT a = b OR ", ""),
        ("(1) + ", ""),
        ("-1 - ", ""),
        ("abs(1) * ", ""),
        ("CAST(1 AS int) || ", ""),
        ("1 IN (1) AND ", ""),
        ("a BETWEEN 1 AND 2 OR ", ""),
        ("1 + ", ""),
        ("", "::int"),
        ("", " IS NULL"),
        ("", ", (1)"),
        ("", ", NOT a"),
    ];
    for (before, after) in rows {
        let found = told_nested(rt.alloc(), ["SELECT ", before, "1", after, ""], 300)?;
        assert_eq!(rt; found, Good, "{before:?} {after:?}");
    }
    Ok(())
}

#[test]
fn mixed_levels(rt: HostRuntime) -> Result<(), Fail> {
    let rows = [
        ("-(", ")", 100, Good),
        ("-(", ")", 101, NotInProfile(207)),
        ("NOT (", ")", 101, NotInProfile(507)),
        ("(NOT ", ")", 101, NotInProfile(507)),
        ("CAST(+abs(", ") AS int)", 66, Good),
        ("CAST(+abs(", ") AS int)", 67, NotInProfile(676)),
    ];
    for (open, close, count, wanted) in rows {
        let found = told_nested(rt.alloc(), ["SELECT ", open, "1", close, ""], count)?;
        assert_eq!(rt; found, wanted, "{open} {count}");
    }
    Ok(())
}
