use crate::reading::{brief, say, script_of};
use al_statements::{ElementList, Script, SqlFault, Statement};
use al_values::{Cant, Txt};
use std::alloc::Global;
use std::process::Abort;
use std::test::Fail;

fn elements(script: &Script) -> Option<&ElementList> {
    match script.as_slice() {
        [Statement::CreateTable(create)] => Some(&create.elements),
        _ => None,
    }
}

// What stands in the parentheses of the only CREATE TABLE of a text.
fn defined(alloc: Global, text: &str) -> Result<Txt, Cant<SqlFault>> {
    let script = script_of(alloc, text)?;
    let printed = match elements(&script) {
        Some(elements) => format!(in alloc; "{elements:?}")?,
        None => String::new(alloc),
    };
    Ok(brief(alloc, printed)?)
}

// Tests that tables have these columns and constraints.
fn define(rt: &impl Abort, alloc: Global, rows: &[(&str, &str)]) -> Result<(), Fail> {
    for (text, wanted) in rows {
        let text = Txt::new(alloc, text)?;
        let found = defined(alloc, text.as_str())?;
        let wanted = Txt::new(alloc, wanted)?;
        assert_eq!(rt; found, wanted, "{text}");
    }
    Ok(())
}

#[test]
fn tables(rt: HostRuntime) -> Result<(), Fail> {
    let rows = [
        (
            "CREATE TABLE t ()",
            "[CreateTable(CreateTable name: t, elements: [], parents: [])]",
        ),
        (
            "CREATE TABLE t () INHERITS (p, q)",
            "[CreateTable(CreateTable name: t, elements: [], parents: [p, q])]",
        ),
        (
            "CREATE TABLE t (a int) INHERITS (p)",
            "[CreateTable(CreateTable name: t, elements: [Column(ColumnDefinition name: a, kind: Integer, default: None, not_null: false, constraints: [])], parents: [p])]",
        ),
    ];
    say(&rt, rt.alloc(), &rows)
}

#[test]
fn columns(rt: HostRuntime) -> Result<(), Fail> {
    let rows = [
        (
            "CREATE TABLE t (a int DEFAULT 1 NOT NULL)",
            "[Column(ColumnDefinition name: a, kind: Integer, default: Some(Literal(30, Int(1))), not_null: true, constraints: [])]",
        ),
        (
            "CREATE TABLE t (a text NOT NULL NOT NULL DEFAULT (TRUE) NOT NULL)",
            "[Column(ColumnDefinition name: a, kind: Text, default: Some(Literal(50, Bool(true))), not_null: true, constraints: [])]",
        ),
        (
            "CREATE TABLE t (a int UNIQUE PRIMARY KEY UNIQUE)",
            "[Column(ColumnDefinition name: a, kind: Integer, default: None, not_null: false, constraints: [Constraint name: None, rule: Unique([a]), Constraint name: None, rule: PrimaryKey([a]), Constraint name: None, rule: Unique([a])])]",
        ),
        (
            "CREATE TABLE t (a int CONSTRAINT c CHECK (a) NO INHERIT CHECK (b))",
            "[Column(ColumnDefinition name: a, kind: Integer, default: None, not_null: false, constraints: [Constraint name: Some(c), rule: Check(Column(42, a), true), Constraint name: None, rule: Check(Column(63, b), false)])]",
        ),
        (
            "CREATE TABLE t (a int REFERENCES p, b int CONSTRAINT f REFERENCES p (c))",
            "[Column(ColumnDefinition name: a, kind: Integer, default: None, not_null: false, constraints: [Constraint name: None, rule: ForeignKey([a], p, None)]), Column(ColumnDefinition name: b, kind: Integer, default: None, not_null: false, constraints: [Constraint name: Some(f), rule: ForeignKey([b], p, Some([c]))])]",
        ),
        (
            "CREATE TABLE t (\"A\" varchar(3) CONSTRAINT k PRIMARY KEY CONSTRAINT u UNIQUE)",
            "[Column(ColumnDefinition name: A, kind: Varchar(3), default: None, not_null: false, constraints: [Constraint name: Some(k), rule: PrimaryKey([A]), Constraint name: Some(u), rule: Unique([A])])]",
        ),
    ];
    define(&rt, rt.alloc(), &rows)
}

#[test]
fn rules(rt: HostRuntime) -> Result<(), Fail> {
    let rows = [
        (
            "CREATE TABLE t (CHECK (a))",
            "[Constraint(Constraint name: None, rule: Check(Column(23, a), false))]",
        ),
        (
            "CREATE TABLE t (CONSTRAINT c CHECK (a) NO INHERIT)",
            "[Constraint(Constraint name: Some(c), rule: Check(Column(36, a), true))]",
        ),
        (
            "CREATE TABLE t (CONSTRAINT u UNIQUE (a, b), PRIMARY KEY (a))",
            "[Constraint(Constraint name: Some(u), rule: Unique([a, b])), Constraint(Constraint name: None, rule: PrimaryKey([a]))]",
        ),
        (
            "CREATE TABLE t (FOREIGN KEY (a, b) REFERENCES p (c, d))",
            "[Constraint(Constraint name: None, rule: ForeignKey([a, b], p, Some([c, d])))]",
        ),
        (
            "CREATE TABLE t (CONSTRAINT f FOREIGN KEY (a) REFERENCES p)",
            "[Constraint(Constraint name: Some(f), rule: ForeignKey([a], p, None))]",
        ),
    ];
    define(&rt, rt.alloc(), &rows)
}
