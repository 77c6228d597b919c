use crate::reading::{brief, say, script_of};
use al_statements::{Change, Script, SqlFault, Statement};
use al_values::{Cant, Txt};
use std::alloc::Global;
use std::process::Abort;
use std::test::Fail;

fn change(script: &Script) -> Option<&Change> {
    match script.as_slice() {
        [Statement::AlterTable(alter)] => Some(&alter.change),
        _ => None,
    }
}

// What the only ALTER TABLE of a text does.
fn changed(alloc: Global, text: &str) -> Result<Txt, Cant<SqlFault>> {
    let script = script_of(alloc, text)?;
    let printed = match change(&script) {
        Some(change) => format!(in alloc; "{change:?}")?,
        None => String::new(alloc),
    };
    Ok(brief(alloc, printed)?)
}

// Tests that texts change tables so.
fn change_so(rt: &impl Abort, alloc: Global, rows: &[(&str, &str)]) -> Result<(), Fail> {
    for (text, wanted) in rows {
        let text = Txt::new(alloc, text)?;
        let found = changed(alloc, text.as_str())?;
        let wanted = Txt::new(alloc, wanted)?;
        assert_eq!(rt; found, wanted, "{text}");
    }
    Ok(())
}

#[test]
fn whole(rt: HostRuntime) -> Result<(), Fail> {
    let rows = [
        (
            "ALTER TABLE t INHERIT p",
            "[AlterTable(Alter target: t, change: Subs([Inherit(p)]))]",
        ),
        (
            "ALTER TABLE ONLY t RENAME TO u",
            "[AlterTable(Alter target: ONLY t, change: Rename(Table(u)))]",
        ),
        (
            "ALTER TABLE t DROP a, DROP b; COMMIT",
            "[AlterTable(Alter target: t, change: Subs([DropColumn(a), DropColumn(b)])), Commit]",
        ),
    ];
    say(&rt, rt.alloc(), &rows)
}

#[test]
fn additions(rt: HostRuntime) -> Result<(), Fail> {
    let rows = [
        (
            "ALTER TABLE t ADD a int",
            "Subs([AddColumn(ColumnDefinition name: a, kind: Integer, default: None, not_null: false, constraints: [])])",
        ),
        (
            "ALTER TABLE t ADD COLUMN a int NOT NULL DEFAULT 1 UNIQUE",
            "Subs([AddColumn(ColumnDefinition name: a, kind: Integer, default: Some(Literal(48, Int(1))), not_null: true, constraints: [Constraint name: None, rule: Unique([a])])])",
        ),
        (
            "ALTER TABLE t ADD UNIQUE (a)",
            "Subs([AddConstraint(Constraint name: None, rule: Unique([a]), false)])",
        ),
        (
            "ALTER TABLE t ADD CONSTRAINT k PRIMARY KEY (a, b)",
            "Subs([AddConstraint(Constraint name: Some(k), rule: PrimaryKey([a, b]), false)])",
        ),
        (
            "ALTER TABLE t ADD CHECK (TRUE)",
            "Subs([AddConstraint(Constraint name: None, rule: Check(Literal(25, Bool(true)), false), false)])",
        ),
        (
            "ALTER TABLE t ADD CHECK (TRUE) NOT VALID",
            "Subs([AddConstraint(Constraint name: None, rule: Check(Literal(25, Bool(true)), false), true)])",
        ),
        (
            "ALTER TABLE t ADD CONSTRAINT c CHECK (TRUE) NO INHERIT NOT VALID",
            "Subs([AddConstraint(Constraint name: Some(c), rule: Check(Literal(38, Bool(true)), true), true)])",
        ),
        (
            "ALTER TABLE t ADD FOREIGN KEY (a) REFERENCES p",
            "Subs([AddConstraint(Constraint name: None, rule: ForeignKey([a], p, None), false)])",
        ),
        (
            "ALTER TABLE t ADD CONSTRAINT f FOREIGN KEY (a) REFERENCES p (b) NOT VALID",
            "Subs([AddConstraint(Constraint name: Some(f), rule: ForeignKey([a], p, Some([b])), true)])",
        ),
    ];
    change_so(&rt, rt.alloc(), &rows)
}

#[test]
fn alterations(rt: HostRuntime) -> Result<(), Fail> {
    let rows = [
        (
            "ALTER TABLE t ALTER COLUMN a TYPE int",
            "Subs([AlterType(a, Integer, None)])",
        ),
        (
            "ALTER TABLE t ALTER COLUMN a SET DATA TYPE int",
            "Subs([AlterType(a, Integer, None)])",
        ),
        (
            "ALTER TABLE t ALTER a TYPE character varying (5) USING b",
            "Subs([AlterType(a, Varchar(5), Some(Column(55, b)))])",
        ),
        (
            "ALTER TABLE t ALTER COLUMN a SET DEFAULT 70",
            "Subs([SetDefault(a, Literal(41, Int(70)))])",
        ),
        (
            "ALTER TABLE t ALTER COLUMN a DROP DEFAULT",
            "Subs([DropDefault(a)])",
        ),
        (
            "ALTER TABLE t ALTER a SET NOT NULL",
            "Subs([SetNotNull(a)])",
        ),
        (
            "ALTER TABLE t ALTER a DROP NOT NULL",
            "Subs([DropNotNull(a)])",
        ),
        (
            "ALTER TABLE t ALTER COLUMN a SET STATISTICS 70",
            "Subs([SetStatistics(a, 70)])",
        ),
        (
            "ALTER TABLE t ALTER COLUMN a SET STATISTICS -70",
            "Subs([SetStatistics(a, -70)])",
        ),
    ];
    change_so(&rt, rt.alloc(), &rows)
}

#[test]
fn other_subcommands(rt: HostRuntime) -> Result<(), Fail> {
    let rows = [
        ("ALTER TABLE t DROP COLUMN a", "Subs([DropColumn(a)])"),
        ("ALTER TABLE t DROP a RESTRICT", "Subs([DropColumn(a)])"),
        (
            "ALTER TABLE t DROP CONSTRAINT c",
            "Subs([DropConstraint(c)])",
        ),
        (
            "ALTER TABLE t DROP CONSTRAINT c RESTRICT",
            "Subs([DropConstraint(c)])",
        ),
        ("ALTER TABLE t VALIDATE CONSTRAINT c", "Subs([Validate(c)])"),
        (
            "ALTER TABLE t SET (fillfactor = 70)",
            "Subs([SetFillfactor(70)])",
        ),
        ("ALTER TABLE t INHERIT p", "Subs([Inherit(p)])"),
        ("ALTER TABLE t NO INHERIT p", "Subs([NoInherit(p)])"),
        (
            "ALTER TABLE t DROP a, ADD b int, VALIDATE CONSTRAINT c",
            "Subs([DropColumn(a), AddColumn(ColumnDefinition name: b, kind: Integer, default: None, not_null: false, constraints: []), Validate(c)])",
        ),
        ("ALTER TABLE t RENAME TO u", "Rename(Table(u))"),
        ("ALTER TABLE t RENAME COLUMN a TO b", "Rename(Column(a, b))"),
        ("ALTER TABLE t RENAME a TO b", "Rename(Column(a, b))"),
        (
            "ALTER TABLE t RENAME CONSTRAINT c TO d",
            "Rename(Constraint(c, d))",
        ),
    ];
    change_so(&rt, rt.alloc(), &rows)
}
