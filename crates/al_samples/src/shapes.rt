use al_expr::{Comparison, Expr, Operator};
use al_schema::{Constraint, Rule, Shape, Slot, names};
use al_values::{Copied, IdList, Kind, ListOf, Name, NoMemory, Row, Txt, Value};
use sqlite_items::{Boxed, Items};
use std::alloc::Global;
use std::test::Fail;

fn name(alloc: Global, text: &str) -> Result<Name, NoMemory> {
    Txt::new(alloc, text)
}

fn slot(alloc: Global, text: &str, added: Value) -> Result<Slot, NoMemory> {
    Ok(Slot {
        name: name(alloc, text)?,
        kind: Kind::Bigint,
        default: added.copied(alloc)?,
        added,
        not_null: false,
        own: true,
        dropped: false,
    })
}

fn row(alloc: Global, numbers: &[i64]) -> Result<Row, NoMemory> {
    let mut row = ListOf::new(alloc);
    for number in numbers {
        row.push(Value::Int(*number))?;
    }
    Ok(row)
}

// The column a, greater than 0.
fn positive(alloc: Global) -> Result<Expr, NoMemory> {
    let mut links = Items::new(alloc);
    let zero = Expr::Literal(2, Value::Int(0));
    links.push((1, Operator::Compare(Comparison::Greater), zero))?;
    let column = Expr::Column(0, name(alloc, "a")?);
    Ok(Expr::Chain(Boxed::new(alloc, column)?, links))
}

fn constraint(alloc: Global, text: &str, rule: Rule) -> Result<Constraint, NoMemory> {
    Ok(Constraint {
        maker: 5,
        table: 1,
        first_name: name(alloc, text)?,
        name: name(alloc, text)?,
        rule,
        valid: false,
        own: true,
    })
}

// The columns a and b.
fn two_columns(alloc: Global) -> Result<Shape, NoMemory> {
    let shape = Shape::new(alloc).add_column(alloc, slot(alloc, "a", Value::Null)?)?;
    shape.add_column(alloc, slot(alloc, "b", Value::Null)?)
}

fn without(alloc: Global, shape: Shape, slot: u32) -> Result<Shape, NoMemory> {
    if slot as usize >= shape.slots().len() {
        return Err(NoMemory);
    }
    shape.drop_column(alloc, slot)
}

// A slot was dropped before another was added.
fn added_after_dropped(alloc: Global) -> Result<Shape, NoMemory> {
    let shape = without(alloc, two_columns(alloc)?, 0)?;
    shape.add_column(alloc, slot(alloc, "c", Value::Int(7))?)
}

fn last_number(alloc: Global, shape: &Shape, stored: &Row) -> Result<i64, NoMemory> {
    if stored.len() > shape.slots().len() {
        return Err(NoMemory);
    }
    match shape.row_of(alloc, stored)?.get(1) {
        Some(Value::Int(number)) => Ok(*number),
        _ => Err(NoMemory),
    }
}

#[test]
fn added_value(rt: HostRuntime) -> Result<(), Fail> {
    let shape = added_after_dropped(rt.alloc())?;
    let stored = row(rt.alloc(), &[1, 2])?;
    assert_eq!(rt; last_number(rt.alloc(), &shape, &stored)?, 7);
    Ok(())
}

#[test]
fn stored_value(rt: HostRuntime) -> Result<(), Fail> {
    let shape = added_after_dropped(rt.alloc())?;
    let stored = row(rt.alloc(), &[1, 2, 3])?;
    assert_eq!(rt; last_number(rt.alloc(), &shape, &stored)?, 3);
    Ok(())
}

// A CHECK of a column and a key of the other.
fn two_rules(alloc: Global) -> Result<Shape, NoMemory> {
    let mut shape = two_columns(alloc)?;
    let check = Rule::Check(positive(alloc)?, false);
    shape.add_constraint(constraint(alloc, "c", check)?)?;
    let mut slots: IdList = ListOf::new(alloc);
    slots.push(1)?;
    shape.add_constraint(constraint(alloc, "k", Rule::Unique(slots))?)?;
    Ok(shape)
}

fn renamed_and_retyped(alloc: Global, shape: Shape, to: &str) -> Result<Shape, NoMemory> {
    if shape.slots().is_empty() {
        return Err(NoMemory);
    }
    let shape = shape.rename_column(alloc, 0, name(alloc, to)?)?;
    if shape.slots().is_empty() {
        return Err(NoMemory);
    }
    shape.retype_column(alloc, 0, Kind::Text)
}

fn first_names(alloc: Global, shape: &Shape, text: &str) -> Result<bool, NoMemory> {
    let column = name(alloc, text)?;
    match shape.constraints().first() {
        Some(constraint) => Ok(match &constraint.rule {
            Rule::Check(expr, _) => names(expr, &column),
            _ => false,
        }),
        None => Ok(false),
    }
}

#[test]
fn column_renamed(rt: HostRuntime) -> Result<(), Fail> {
    let shape = renamed_and_retyped(rt.alloc(), two_rules(rt.alloc())?, "z")?.copied(rt.alloc())?;
    assert!(rt; first_names(rt.alloc(), &shape, "z")?);
    assert!(rt; !first_names(rt.alloc(), &shape, "a")?);
    Ok(())
}

fn count_involving(alloc: Global, shape: &Shape) -> Result<usize, NoMemory> {
    if shape.slots().is_empty() {
        return Err(NoMemory);
    }
    Ok(shape.involving(alloc, 0)?.len())
}

#[test]
fn column_dropped(rt: HostRuntime) -> Result<(), Fail> {
    let shape = two_rules(rt.alloc())?;
    assert_eq!(rt; count_involving(rt.alloc(), &shape)?, 1);
    let shape = without(rt.alloc(), shape, 0)?;
    assert_eq!(rt; shape.constraint_of(&name(rt.alloc(), "c")?), None);
    Ok(())
}
