use crate::evaluated::{value, value_of, value_on, value_on_texts};
use al_statements::SqlFault;
use al_values::{Cant, Kind, Txt};
use std::alloc::Global;
use std::process::Abort;
use std::test::Fail;

// Tests that expressions give these.
fn give(rt: &impl Abort, alloc: Global, rows: &[(&str, &str)]) -> Result<(), Fail> {
    for (text, wanted) in rows {
        let text = Txt::new(alloc, text)?;
        let found = value(alloc, text.as_str())?;
        let wanted = Txt::new(alloc, wanted)?;
        assert_eq!(rt; found, wanted, "{text}");
    }
    Ok(())
}

#[test]
fn logic(rt: HostRuntime) -> Result<(), Fail> {
    let rows = [
        ("TRUE", "TRUE", "t", "t"),
        ("TRUE", "FALSE", "f", "t"),
        ("TRUE", "NULL", "null", "t"),
        ("FALSE", "TRUE", "f", "t"),
        ("FALSE", "FALSE", "f", "f"),
        ("FALSE", "NULL", "f", "null"),
        ("NULL", "TRUE", "null", "t"),
        ("NULL", "FALSE", "f", "null"),
        ("NULL", "NULL", "null", "null"),
    ];
    for (a, b, both, either) in rows {
        joins(&rt, rt.alloc(), [a, "AND", b], both)?;
        joins(&rt, rt.alloc(), [a, "OR", b], either)?;
    }
    Ok(())
}

// What an operator gives between two operands.
fn joined(alloc: Global, a: &str, operator: &str, b: &str) -> Result<Txt, Cant<SqlFault>> {
    let text = format!(in alloc; "SELECT {a} {operator} {b}")?;
    value_of(alloc, &Txt::from_string(text))
}

// Tests that two operands and what stands between them give this.
fn joins(rt: &impl Abort, alloc: Global, parts: [&str; 3], wanted: &str) -> Result<(), Fail> {
    let wanted = Txt::new(alloc, wanted)?;
    let found = joined(alloc, parts[0], parts[1], parts[2])?;
    let middle = Txt::new(alloc, parts[1])?;
    assert_eq!(rt; found, wanted, "{middle}");
    Ok(())
}

#[test]
fn denials_and_tests_of_null(rt: HostRuntime) -> Result<(), Fail> {
    let rows = [
        ("SELECT NOT TRUE", "f"),
        ("SELECT NOT FALSE", "t"),
        ("SELECT NOT NULL", "null"),
        ("SELECT TRUE IS NULL", "f"),
        ("SELECT FALSE IS NULL", "f"),
        ("SELECT NULL IS NULL", "t"),
        ("SELECT TRUE IS NOT NULL", "t"),
        ("SELECT FALSE IS NOT NULL", "t"),
        ("SELECT NULL IS NOT NULL", "f"),
    ];
    give(&rt, rt.alloc(), &rows)
}

#[test]
fn arithmetic(rt: HostRuntime) -> Result<(), Fail> {
    let (small, whole, big) = (Kind::Smallint, Kind::Integer, Kind::Bigint);
    let rows = [
        ("SELECT a / b", (whole, whole), (7, -2), "-3"),
        ("SELECT a / b", (whole, whole), (-7, 2), "-3"),
        ("SELECT a % b", (whole, whole), (-7, 3), "-1"),
        ("SELECT a % b", (whole, whole), (7, -3), "1"),
        ("SELECT a - b", (whole, whole), (3, 5), "-2"),
        ("SELECT a * b", (whole, whole), (6, 7), "42"),
        ("SELECT a / b", (whole, whole), (1, 0), "DivZero"),
        ("SELECT a % b", (whole, whole), (1, 0), "DivZero"),
        ("SELECT a + b", (whole, whole), (2_147_483_647, 1), "Range"),
        (
            "SELECT a + b",
            (whole, big),
            (2_147_483_647, 1),
            "2147483648",
        ),
        ("SELECT a - b", (whole, small), (-2_147_483_648, 1), "Range"),
        ("SELECT a + b", (small, small), (32_767, 1), "Range"),
        ("SELECT a + b", (small, whole), (32_767, 1), "32768"),
        ("SELECT a / b", (small, small), (-32_768, -1), "Range"),
        ("SELECT a * b", (small, small), (200, 200), "Range"),
        ("SELECT a / b", (big, big), (i64::MIN, -1), "Range"),
        ("SELECT a % b", (big, big), (i64::MIN, -1), "0"),
        ("SELECT a + b", (big, small), (i64::MAX, 1), "Range"),
        ("SELECT a - b", (big, small), (i64::MIN, 1), "Range"),
        ("SELECT a * b", (big, small), (i64::MAX, 2), "Range"),
    ];
    for (text, kinds, values, wanted) in rows {
        let found = value_on(rt.alloc(), text, kinds, values)?;
        assert_eq!(rt; found.as_str(), wanted, "{text} {values:?}");
    }
    Ok(())
}

#[test]
fn signs(rt: HostRuntime) -> Result<(), Fail> {
    let rows = [
        (Kind::Integer, 5, "-5", "5"),
        (Kind::Integer, -5, "5", "5"),
        (Kind::Smallint, -32_768, "Range", "Range"),
        (Kind::Integer, -32_768, "32768", "32768"),
        (Kind::Integer, -2_147_483_648, "Range", "Range"),
        (Kind::Bigint, i64::MIN, "Range", "Range"),
    ];
    for (kind, number, minus, absolute) in rows {
        let found = value_on(rt.alloc(), "SELECT -a", (kind, kind), (number, 0))?;
        assert_eq!(rt; found.as_str(), minus, "{kind:?} {number}");
        let found = value_on(rt.alloc(), "SELECT abs(a)", (kind, kind), (number, 0))?;
        assert_eq!(rt; found.as_str(), absolute, "{kind:?} {number}");
    }
    Ok(())
}

#[test]
fn comparisons(rt: HostRuntime) -> Result<(), Fail> {
    let rows = [
        ("=", "f", "t", "f"),
        ("<>", "t", "f", "t"),
        ("!=", "t", "f", "t"),
        ("<", "t", "f", "f"),
        ("<=", "t", "t", "f"),
        (">", "f", "f", "t"),
        (">=", "f", "t", "t"),
    ];
    for (operator, below, same, above) in rows {
        for (a, wanted) in [("1", below), ("2", same), ("3", above), ("NULL", "null")] {
            joins(&rt, rt.alloc(), [a, operator, "2"], wanted)?;
        }
        joins(&rt, rt.alloc(), ["2", operator, "NULL"], "null")?;
    }
    Ok(())
}

#[test]
fn nulls_in_arithmetic_and_texts(rt: HostRuntime) -> Result<(), Fail> {
    for operator in ["+", "-", "*", "/", "%"] {
        joins(&rt, rt.alloc(), ["NULL", operator, "0"], "null")?;
        joins(&rt, rt.alloc(), ["0", operator, "NULL"], "null")?;
    }
    let rows = [
        ("SELECT 'a' || NULL", "null"),
        ("SELECT length(NULL)", "null"),
        ("SELECT -(1 + NULL)", "null"),
        ("SELECT abs(1 + NULL)", "null"),
        ("SELECT NULL::integer::boolean", "null"),
        ("SELECT coalesce(NULL, NULL)", "null"),
    ];
    give(&rt, rt.alloc(), &rows)
}

#[test]
fn lists_and_ranges(rt: HostRuntime) -> Result<(), Fail> {
    let rows = [
        ("1", "IN (1, NULL)", "t", "f"),
        ("2", "IN (1, NULL)", "null", "null"),
        ("1", "IN (NULL, 1)", "t", "f"),
        ("2", "IN (1, 3)", "f", "t"),
        ("3", "IN (1, 3)", "t", "f"),
        ("NULL", "IN (1, 3)", "null", "null"),
        ("5", "BETWEEN 7 AND NULL", "f", "t"),
        ("5", "BETWEEN 1 AND NULL", "null", "null"),
        ("5", "BETWEEN NULL AND 3", "f", "t"),
        ("5", "BETWEEN NULL AND 7", "null", "null"),
        ("5", "BETWEEN 5 AND 5", "t", "f"),
        ("5", "BETWEEN 1 AND 4", "f", "t"),
        ("NULL", "BETWEEN 1 AND 4", "null", "null"),
    ];
    for (a, test, wanted, denied) in rows {
        joins(&rt, rt.alloc(), [a, "", test], wanted)?;
        joins(&rt, rt.alloc(), [a, "NOT", test], denied)?;
    }
    Ok(())
}

#[test]
fn faults_and_stops(rt: HostRuntime) -> Result<(), Fail> {
    let rows = [
        ("SELECT FALSE AND 1 / 0 = 1", "f"),
        ("SELECT TRUE OR 1 / 0 = 1", "t"),
        ("SELECT 1 / 0 = 1 AND FALSE", "DivZero"),
        ("SELECT NULL AND 1 / 0 = 1", "DivZero"),
        ("SELECT coalesce(1, 1 / 0)", "1"),
        ("SELECT coalesce(NULL, 2)", "2"),
        ("SELECT 1 IN (1, 1 / 0)", "t"),
        ("SELECT 1 IN (1 / 0, 1)", "DivZero"),
        ("SELECT 1 BETWEEN 2 AND 1 / 0", "f"),
        ("SELECT NULL + 1 / 0", "DivZero"),
    ];
    give(&rt, rt.alloc(), &rows)
}

#[test]
fn strings_take_the_kind_of_the_other_side(rt: HostRuntime) -> Result<(), Fail> {
    let rows = [
        ("SELECT 5 + ' 7 '", "12"),
        ("SELECT 5 + 'x'", "Cast(BadText)"),
        ("SELECT 5 + '2147483648'", "Cast(OutOfRange)"),
        ("SELECT 5 + '2147483647'", "Range"),
        ("SELECT 'x' + 1 / 0", "Cast(BadText)"),
        ("SELECT '2024-02-29' = DATE '2024-02-29'", "t"),
        ("SELECT 'b' > 'a'", "t"),
        ("SELECT NOT 'yes'", "f"),
        ("SELECT '09' IN (8, 9)", "t"),
        ("SELECT coalesce('07', 1)", "7"),
        ("SELECT coalesce('x', 1)", "Cast(BadText)"),
    ];
    give(&rt, rt.alloc(), &rows)?;
    let found = value_on_texts(rt.alloc(), "SELECT a = 'longer text'", "short", "")?;
    assert_eq!(rt; found.as_str(), "f");
    let small = (Kind::Smallint, Kind::Smallint);
    let found = value_on(rt.alloc(), "SELECT '40000' + a", small, (1, 1))?;
    assert_eq!(rt; found.as_str(), "Cast(OutOfRange)");
    Ok(())
}

#[test]
fn dates(rt: HostRuntime) -> Result<(), Fail> {
    let rows = [
        ("SELECT DATE '2024-02-28' + 2", "2024-03-01"),
        ("SELECT DATE '2023-02-28' + 2", "2023-03-02"),
        ("SELECT DATE '2024-03-01' - 1", "2024-02-29"),
        ("SELECT DATE '9999-12-31' + 1", "Range"),
        ("SELECT DATE '0001-01-01' - 1", "Range"),
        ("SELECT DATE '0001-01-01' + 1", "0001-01-02"),
        ("SELECT DATE '2023-02-29' + 0", "Cast(BadDate)"),
        ("SELECT DATE '2024-01-01' + 9223372036854775807", "Range"),
        ("SELECT 1 + DATE '1999-12-31'", "2000-01-01"),
        ("SELECT DATE '2024-03-01' - DATE '2024-02-28'", "2"),
    ];
    give(&rt, rt.alloc(), &rows)
}

#[test]
fn casts(rt: HostRuntime) -> Result<(), Fail> {
    let rows = [
        ("SELECT '12'::integer", "12"),
        ("SELECT '70000'::smallint", "Cast(OutOfRange)"),
        ("SELECT 'off'::boolean", "f"),
        ("SELECT 'abcdef'::varchar(3)", "abc"),
        ("SELECT CAST('1999-12-31' AS date)", "1999-12-31"),
        ("SELECT CAST('abc' AS text)", "abc"),
        ("SELECT TRUE::integer", "1"),
        ("SELECT 0::boolean", "f"),
        ("SELECT '0042'::integer::text::varchar(1)", "4"),
        ("SELECT -'5'::integer", "-5"),
        ("SELECT -32768::smallint", "Cast(OutOfRange)"),
        ("SELECT (-32768)::smallint", "-32768"),
    ];
    give(&rt, rt.alloc(), &rows)
}

#[test]
fn precedences(rt: HostRuntime) -> Result<(), Fail> {
    let rows = [
        ("SELECT 2 + 3 * 4 - 5", "9"),
        ("SELECT (2 + 3) * 4", "20"),
        ("SELECT 10 - 4 - 3", "3"),
        ("SELECT 10 - (4 - 3)", "9"),
        ("SELECT 24 / 4 / 2", "3"),
        ("SELECT 7 % 4 * 2", "6"),
        ("SELECT - 2 * 3", "-6"),
        ("SELECT 'a' || 'b' = 'ab'", "t"),
        ("SELECT TRUE OR TRUE AND FALSE", "t"),
        ("SELECT (TRUE OR TRUE) AND FALSE", "f"),
        ("SELECT NOT FALSE AND FALSE", "f"),
        ("SELECT NOT (FALSE AND FALSE)", "t"),
        ("SELECT NOT 1 = 2", "t"),
        ("SELECT 1 = 1 IS NULL", "f"),
        ("SELECT 1 + 1 BETWEEN 1 + 1 AND 1 + 1", "t"),
        ("SELECT '1' || '2' IN ('12')", "t"),
        ("SELECT 1 IN (2) = FALSE", "t"),
    ];
    give(&rt, rt.alloc(), &rows)
}
