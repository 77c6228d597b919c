use crate::reading::{brief, script_of};
use al_expr::{Expr, place_of, same, without_places};
use al_statements::{Query, Script, SqlFault, Statement};
use al_values::{Cant, Copied, NoMemory, Txt};
use std::alloc::Global;
use std::process::Abort;
use std::test::Fail;

/// The first expression of a script that is a SELECT without FROM.
pub(crate) fn first_output(script: &Script) -> Option<&Expr> {
    match script.as_slice() {
        [Statement::Select(Query::Row(outputs))] => match outputs.as_slice() {
            [first, ..] => Some(&first.expr),
            [] => None,
        },
        _ => None,
    }
}

// The tree of a text's expression.
fn tree(alloc: Global, text: &str) -> Result<Txt, Cant<SqlFault>> {
    let script = script_of(alloc, text)?;
    let printed = match first_output(&script) {
        Some(expr) => format!(in alloc; "{expr:?}")?,
        None => String::new(alloc),
    };
    Ok(brief(alloc, printed)?)
}

// Tests that texts are these trees.
fn are_trees(rt: &impl Abort, alloc: Global, rows: &[(&str, &str)]) -> Result<(), Fail> {
    for (text, wanted) in rows {
        let text = Txt::new(alloc, text)?;
        let found = tree(alloc, text.as_str())?;
        let wanted = Txt::new(alloc, wanted)?;
        assert_eq!(rt; found, wanted, "{text}");
    }
    Ok(())
}

#[test]
fn atoms(rt: HostRuntime) -> Result<(), Fail> {
    let rows = [
        ("SELECT 007", "Literal(7, Int(7))"),
        (
            "SELECT 9223372036854775807",
            "Literal(7, Int(9223372036854775807))",
        ),
        ("SELECT 'it''s'", "Literal(7, Text(it's))"),
        ("SELECT ''", "Literal(7, Text())"),
        ("SELECT '--' -- ''", "Literal(7, Text(--))"),
        ("SELECT FALSE", "Literal(7, Bool(false))"),
        ("SELECT NULL", "Literal(7, Null)"),
        ("SELECT DATE '2024-02-29'", "Date(7, 2024-02-29)"),
        ("SELECT date", "Column(7, date)"),
        ("SELECT ABS", "Column(7, abs)"),
        ("SELECT \"A\"\"b\"", "Column(7, A\"b)"),
        ("SELECT case", "Column(7, case)"),
        (
            "SELECT CAST(a AS text)",
            "Casts(Column(12, a), [(7, Text)])",
        ),
        (
            "SELECT coalesce(a, 1)",
            "Coalesce(7, [Column(16, a), Literal(19, Int(1))])",
        ),
        ("SELECT abs (a)", "Abs(7, Column(12, a))"),
        ("SELECT length(a)", "Length(7, Column(14, a))"),
        ("SELECT ((a))", "Column(9, a)"),
    ];
    are_trees(&rt, rt.alloc(), &rows)
}

#[test]
fn operators(rt: HostRuntime) -> Result<(), Fail> {
    let rows = [
        (
            "SELECT a OR b AND NOT c",
            "Chain(Column(7, a), [(9, Or, Chain(Column(12, b), [(14, And, Prefixed(Column(22, c), [(18, Not)]))]))])",
        ),
        (
            "SELECT a AND b OR c",
            "Chain(Chain(Column(7, a), [(9, And, Column(13, b))]), [(15, Or, Column(18, c))])",
        ),
        (
            "SELECT NOT NOT a = b",
            "Prefixed(Chain(Column(15, a), [(17, Compare(Equal), Column(19, b))]), [(11, Not), (7, Not)])",
        ),
        (
            "SELECT NOT a IS NULL",
            "Prefixed(IsNull(Column(11, a), [(13, false)]), [(7, Not)])",
        ),
        (
            "SELECT a = b IS NULL IS NOT NULL",
            "IsNull(Chain(Column(7, a), [(9, Compare(Equal), Column(11, b))]), [(13, false), (21, true)])",
        ),
        (
            "SELECT a < b || c",
            "Chain(Column(7, a), [(9, Compare(Less), Chain(Column(11, b), [(13, Concat, Column(16, c))]))])",
        ),
        (
            "SELECT a || b + c",
            "Chain(Column(7, a), [(9, Concat, Chain(Column(12, b), [(14, Calculate(Add), Column(16, c))]))])",
        ),
        (
            "SELECT a + b * c",
            "Chain(Column(7, a), [(9, Calculate(Add), Chain(Column(11, b), [(13, Calculate(Multiply), Column(15, c))]))])",
        ),
        (
            "SELECT a / b % c",
            "Chain(Column(7, a), [(9, Calculate(Divide), Column(11, b)), (13, Calculate(Remainder), Column(15, c))])",
        ),
        (
            "SELECT a - b - c",
            "Chain(Column(7, a), [(9, Calculate(Subtract), Column(11, b)), (13, Calculate(Subtract), Column(15, c))])",
        ),
        (
            "SELECT (a - b) - c",
            "Chain(Column(8, a), [(10, Calculate(Subtract), Column(12, b)), (15, Calculate(Subtract), Column(17, c))])",
        ),
        (
            "SELECT a - (b - c)",
            "Chain(Column(7, a), [(9, Calculate(Subtract), Chain(Column(12, b), [(14, Calculate(Subtract), Column(16, c))]))])",
        ),
        (
            "SELECT (a + b) * c",
            "Chain(Chain(Column(8, a), [(10, Calculate(Add), Column(12, b))]), [(15, Calculate(Multiply), Column(17, c))])",
        ),
        (
            "SELECT - +a * b",
            "Chain(Prefixed(Column(10, a), [(9, Plus), (7, Minus)]), [(12, Calculate(Multiply), Column(14, b))])",
        ),
        (
            "SELECT -(-a)",
            "Prefixed(Column(10, a), [(9, Minus), (7, Minus)])",
        ),
        (
            "SELECT -a::int",
            "Prefixed(Casts(Column(8, a), [(9, Integer)]), [(7, Minus)])",
        ),
        (
            "SELECT (-a)::int",
            "Casts(Prefixed(Column(9, a), [(8, Minus)]), [(11, Integer)])",
        ),
        (
            "SELECT CAST(a::int AS text)::date",
            "Casts(Column(12, a), [(13, Integer), (7, Text), (27, Date)])",
        ),
    ];
    are_trees(&rt, rt.alloc(), &rows)
}

#[test]
fn ranges_and_lists(rt: HostRuntime) -> Result<(), Fail> {
    let rows = [
        (
            "SELECT a BETWEEN 1 AND 2 AND b",
            "Chain(Between(9, false, Column(7, a), Literal(17, Int(1)), Literal(23, Int(2))), [(25, And, Column(29, b))])",
        ),
        (
            "SELECT a NOT BETWEEN b + 1 AND 2",
            "Between(9, true, Column(7, a), Chain(Column(21, b), [(23, Calculate(Add), Literal(25, Int(1)))]), Literal(31, Int(2)))",
        ),
        (
            "SELECT a IN (1, b OR c)",
            "In(9, false, Column(7, a), [Literal(13, Int(1)), Chain(Column(16, b), [(18, Or, Column(21, c))])])",
        ),
        (
            "SELECT a NOT IN (1) = b BETWEEN 1 AND 2",
            "Chain(In(9, true, Column(7, a), [Literal(17, Int(1))]), [(20, Compare(Equal), Between(24, false, Column(22, b), Literal(32, Int(1)), Literal(38, Int(2))))])",
        ),
        (
            "SELECT a || b IN (c)",
            "In(14, false, Chain(Column(7, a), [(9, Concat, Column(12, b))]), [Column(18, c)])",
        ),
    ];
    are_trees(&rt, rt.alloc(), &rows)
}

// Whether the expressions of two texts are one tree, with their places, and without.
fn alike(alloc: Global, text: &str, other: &str) -> Result<Option<(bool, bool)>, Cant<SqlFault>> {
    let script = script_of(alloc, text)?;
    let other = script_of(alloc, other)?;
    match (first_output(&script), first_output(&other)) {
        (Some(expr), Some(other)) => Ok(Some(are_alike(alloc, expr, other)?)),
        _ => Ok(None),
    }
}

fn are_alike(alloc: Global, expr: &Expr, other: &Expr) -> Result<(bool, bool), NoMemory> {
    let copy = expr.copied(alloc)?;
    let unplaced = without_places(alloc, expr)?;
    let other_unplaced = without_places(alloc, other)?;
    Ok((same(&copy, other), same(&unplaced, &other_unplaced)))
}

#[test]
fn one_tree(rt: HostRuntime) -> Result<(), Fail> {
    let rows = [
        ("SELECT 0 + 1 + 1", "SELECT 0 + 1 + 1", (true, true)),
        ("SELECT 0 + 1 + 1", "SELECT 0 + 1 + 1 + 1", (false, false)),
        ("SELECT 1", "SELECT 2", (false, false)),
        ("SELECT 1", "SELECT NULL", (false, false)),
        ("SELECT NULL::text", "SELECT NULL::date", (false, false)),
        ("SELECT 1 || 2", "SELECT 1  ||2", (false, true)),
        ("SELECT 1 <> 2", "SELECT 1 != 2", (true, true)),
        ("SELECT (a + b) + c", "SELECT a + b + c", (false, true)),
        ("SELECT a + (b + c)", "SELECT a + b + c", (false, false)),
        (
            "SELECT (a AND b) AND c",
            "SELECT a AND b AND c",
            (false, true),
        ),
        ("SELECT NOT (NOT a)", "SELECT NOT NOT a", (false, true)),
        (
            "SELECT CAST(a AS int)::text",
            "SELECT a::int::text",
            (false, true),
        ),
        (
            "SELECT (a IS NULL) IS NULL",
            "SELECT a IS NULL IS NULL",
            (false, true),
        ),
        ("SELECT (a = b)", "SELECT a = b", (false, true)),
        ("SELECT a::varchar", "SELECT a::text", (true, true)),
        ("SELECT a", "SELECT A", (true, true)),
        ("SELECT \"A\"", "SELECT A", (false, false)),
    ];
    for (text, other, wanted) in rows {
        let found = alike(rt.alloc(), text, other)?;
        assert_eq!(rt; found, Some(wanted), "{text:?}");
    }
    Ok(())
}

fn place(alloc: Global, text: &str) -> Result<Option<u32>, Cant<SqlFault>> {
    let script = script_of(alloc, text)?;
    match first_output(&script) {
        Some(expr) => Ok(Some(place_of(expr))),
        None => Ok(None),
    }
}

#[test]
fn places(rt: HostRuntime) -> Result<(), Fail> {
    let rows = [
        ("SELECT 1 + 2", 9),
        ("SELECT a - b + c", 13),
        ("SELECT abs(1)", 7),
        ("SELECT CAST(1 AS text)", 7),
        ("SELECT 1::text::date", 14),
        ("SELECT (a)", 8),
        ("SELECT a IS NULL IS NULL", 17),
        ("SELECT NOT NOT a", 7),
        ("SELECT a NOT IN (1)", 9),
    ];
    for (text, wanted) in rows {
        let found = place(rt.alloc(), text)?;
        assert_eq!(rt; found, Some(wanted), "{text:?}");
    }
    Ok(())
}
