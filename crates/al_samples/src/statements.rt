use al_expr::Expr;
use al_modes::{Level, Mode, RowMode};
use al_statements::{
    Aggregate, Alter, Assignment, Change, ColumnDefinition, Constraint, CreateTable, Delete,
    DropTable, Element, Function, Insert, InsertRows, LockTable, Output, Query, Rename, Rule,
    SelectList, Series, Setting, Slot, SortKey, Statement, Sub, SubList, TableQuery, Target,
    Update, level, level_of, pass_of,
};
use al_values::{Copied, Kind, ListOf, Name, NameList, NoMemory, Txt, Value};
use std::alloc::Global;
use std::test::Fail;

fn one<T: Drop>(alloc: Global, item: T) -> Result<ListOf<T>, NoMemory> {
    let mut items = ListOf::new(alloc);
    items.push(item)?;
    Ok(items)
}

fn names(alloc: Global, name: &str) -> Result<NameList, NoMemory> {
    one(alloc, Name::new(alloc, name)?)
}

fn number() -> Expr {
    Expr::Literal(3, Value::Int(7))
}

fn target(alloc: Global) -> Result<Target, NoMemory> {
    Ok(Target {
        only: true,
        name: Name::new(alloc, "t")?,
    })
}

fn check() -> Constraint {
    Constraint {
        name: None,
        rule: Rule::Check(number(), true),
    }
}

fn foreign_key(alloc: Global) -> Result<Constraint, NoMemory> {
    Ok(Constraint {
        name: Some(Name::new(alloc, "f")?),
        rule: Rule::ForeignKey(
            names(alloc, "a")?,
            Name::new(alloc, "k")?,
            Some(names(alloc, "id")?),
        ),
    })
}

fn column(alloc: Global) -> Result<ColumnDefinition, NoMemory> {
    Ok(ColumnDefinition {
        name: Name::new(alloc, "a")?,
        kind: Kind::Varchar(5),
        default: Some(number()),
        not_null: true,
        constraints: one(alloc, foreign_key(alloc)?)?,
    })
}

fn is_placed(sub: &Sub, mode: Mode, pass: u8) -> bool {
    level(sub) == mode && pass_of(sub) == pass
}

// A subcommand with its mode and its pass.
type Row = (Sub, Mode, u8);

fn on_columns(alloc: Global) -> Result<[Row; 7], NoMemory> {
    let strict = Mode::AccessExclusive;
    let lax = Mode::ShareUpdateExclusive;
    Ok([
        (Sub::DropColumn(Name::new(alloc, "a")?), strict, 1),
        (Sub::DropDefault(Name::new(alloc, "a")?), strict, 1),
        (Sub::DropNotNull(Name::new(alloc, "a")?), strict, 1),
        (
            Sub::AlterType(Name::new(alloc, "a")?, Kind::Text, None),
            strict,
            2,
        ),
        (Sub::SetNotNull(Name::new(alloc, "a")?), strict, 5),
        (Sub::SetDefault(Name::new(alloc, "a")?, number()), strict, 7),
        (Sub::SetStatistics(Name::new(alloc, "a")?, -1), lax, 8),
    ])
}

fn on_constraints(alloc: Global) -> Result<[Row; 5], NoMemory> {
    let strict = Mode::AccessExclusive;
    let unique = Constraint {
        name: None,
        rule: Rule::Unique(names(alloc, "a")?),
    };
    Ok([
        (Sub::DropConstraint(Name::new(alloc, "c")?), strict, 1),
        (Sub::AddConstraint(unique, false), strict, 6),
        (Sub::AddConstraint(check(), true), strict, 7),
        (
            Sub::AddConstraint(foreign_key(alloc)?, true),
            Mode::ShareRowExclusive,
            7,
        ),
        (
            Sub::Validate(Name::new(alloc, "c")?),
            Mode::ShareUpdateExclusive,
            8,
        ),
    ])
}

#[test]
fn levels_and_passes(rt: HostRuntime) -> Result<(), Fail> {
    for row in on_columns(rt.alloc())? {
        assert!(rt; is_placed(&row.0, row.1, row.2), "{:?}", row.0);
    }
    for row in on_constraints(rt.alloc())? {
        assert!(rt; is_placed(&row.0, row.1, row.2), "{:?}", row.0);
    }
    let add = Sub::AddColumn(column(rt.alloc())?);
    assert!(rt; is_placed(&add, Mode::AccessExclusive, 4), "{add:?}");
    let inherit = Sub::Inherit(Name::new(rt.alloc(), "p")?);
    assert!(rt;
        is_placed(&inherit, Mode::AccessExclusive, 8),
        "{inherit:?}"
    );
    let no_inherit = Sub::NoInherit(Name::new(rt.alloc(), "p")?);
    assert!(rt;
        is_placed(&no_inherit, Mode::AccessExclusive, 8),
        "{no_inherit:?}"
    );
    Ok(())
}

#[test]
fn strictest_of_several(rt: HostRuntime) -> Result<(), Fail> {
    let mut subs = SubList::new(rt.alloc(), Sub::SetFillfactor(70))?;
    assert_eq!(rt; level_of(&subs), Mode::ShareUpdateExclusive);
    subs.push(Sub::AddConstraint(foreign_key(rt.alloc())?, true))?;
    subs.push(Sub::Validate(Name::new(rt.alloc(), "c")?))?;
    assert_eq!(rt; level_of(&subs), Mode::ShareRowExclusive);
    subs.push(Sub::AddConstraint(check(), false))?;
    assert_eq!(rt; level_of(&subs), Mode::AccessExclusive);
    assert_eq!(rt; subs.as_slice().len(), 4);
    assert!(rt;
        SubList::from_list(ListOf::new(rt.alloc())).is_none(),
        "empty"
    );
    Ok(())
}

fn shown(alloc: Global, statement: &Statement) -> Result<Txt, NoMemory> {
    Ok(Txt::from_string(format!(in alloc; "{statement:?}")?))
}

fn are_alike(alloc: Global, a: &Statement, b: &Statement) -> Result<bool, NoMemory> {
    let left = shown(alloc, a)?;
    let right = shown(alloc, b)?;
    Ok(left == right)
}

fn is_copied(alloc: Global, statement: &Statement) -> Result<bool, NoMemory> {
    let copy = statement.copied(alloc)?;
    are_alike(alloc, statement, &copy)
}

fn queries(alloc: Global) -> Result<[Statement; 3], NoMemory> {
    let aggregate = Aggregate {
        place: 7,
        function: Function::Min(number()),
        name: Some(Name::new(alloc, "m")?),
    };
    let key = SortKey {
        column: Name::new(alloc, "a")?,
        descending: true,
    };
    Ok([
        Statement::Select(Query::Row(one(
            alloc,
            Output {
                expr: number(),
                name: None,
            },
        )?)),
        Statement::Select(Query::Table(TableQuery {
            list: SelectList::Aggregates(one(alloc, aggregate)?),
            target: target(alloc)?,
            condition: Some(number()),
            order: ListOf::new(alloc),
            lock: None,
        })),
        Statement::Select(Query::Table(TableQuery {
            list: SelectList::All,
            target: target(alloc)?,
            condition: None,
            order: one(alloc, key)?,
            lock: Some(RowMode::NoKeyUpdate),
        })),
    ])
}

fn writes(alloc: Global) -> Result<[Statement; 4], NoMemory> {
    let assignment = Assignment {
        column: Name::new(alloc, "a")?,
        slot: Slot::Value(number()),
    };
    let series = Series {
        outputs: one(alloc, number())?,
        first: -1,
        last: 1_000,
        name: Name::new(alloc, "g")?,
    };
    Ok([
        Statement::Insert(Insert {
            table: Name::new(alloc, "t")?,
            columns: Some(names(alloc, "a")?),
            rows: InsertRows::Values(one(alloc, one(alloc, Slot::Default)?)?),
        }),
        Statement::Insert(Insert {
            table: Name::new(alloc, "t")?,
            columns: None,
            rows: InsertRows::Series(series),
        }),
        Statement::Update(Update {
            target: target(alloc)?,
            assignments: one(alloc, assignment)?,
            condition: None,
        }),
        Statement::Delete(Delete {
            target: target(alloc)?,
            condition: Some(number()),
        }),
    ])
}

fn definitions(alloc: Global) -> Result<[Statement; 5], NoMemory> {
    Ok([
        Statement::LockTable(LockTable {
            targets: one(alloc, target(alloc)?)?,
            mode: Mode::Share,
            nowait: true,
        }),
        Statement::CreateTable(CreateTable {
            name: Name::new(alloc, "t")?,
            elements: one(alloc, Element::Column(column(alloc)?))?,
            parents: names(alloc, "p")?,
        }),
        Statement::DropTable(DropTable {
            if_exists: true,
            names: names(alloc, "t")?,
        }),
        Statement::AlterTable(Alter {
            target: target(alloc)?,
            change: Change::Subs(SubList::new(alloc, Sub::AddConstraint(check(), true))?),
        }),
        Statement::AlterTable(Alter {
            target: target(alloc)?,
            change: Change::Rename(Rename::Table(Name::new(alloc, "u")?)),
        }),
    ])
}

#[test]
fn copies_are_equal(rt: HostRuntime) -> Result<(), Fail> {
    let simple = [
        Statement::Begin(Some(Level::RepeatableRead)),
        Statement::StartTransaction(None),
        Statement::Commit,
        Statement::Rollback,
        Statement::Set(Setting::LockTimeout),
    ];
    for statement in simple {
        assert!(rt; is_copied(rt.alloc(), &statement)?, "{statement:?}");
    }
    for statement in queries(rt.alloc())? {
        assert!(rt; is_copied(rt.alloc(), &statement)?, "{statement:?}");
    }
    for statement in writes(rt.alloc())? {
        assert!(rt; is_copied(rt.alloc(), &statement)?, "{statement:?}");
    }
    for statement in definitions(rt.alloc())? {
        assert!(rt; is_copied(rt.alloc(), &statement)?, "{statement:?}");
    }
    Ok(())
}
