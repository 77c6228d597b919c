ghost use Rattle.std.specs.Prelude.{◌≡◌, IfOk, if◌then◌else◌};
ghost use Rattle.al_expr.specs.Columns.{same_name};
ghost use Rattle.al_schema.specs.Naming.{renamed, links_renamed, items_renamed};

use al_expr::{Expr, Operator};
use al_values::{Copied, Name, NoMemory};
use sqlite_items::{Boxed, Items};
use std::alloc::Global;

/// A copy of an expression with another name for a column.
#[tactic(auto, using(crate::proofs::RenamingNodes::renaming_nodes))]
#[cycle(renaming)]
pub fn renamed(alloc: Global, from: &Name, to: &Name, expr: &Expr) -> Result<Expr, NoMemory>
    ensures { IfOk result (λ copy. copy ≡ renamed from.now to.now expr.now) }
{
    match expr {
        Expr::Literal(place, value) => Ok(Expr::Literal(*place, value.copied(alloc)?)),
        Expr::Date(place, text) => Ok(Expr::Date(*place, text.copied(alloc)?)),
        Expr::Column(place, column) => Ok(Expr::Column(
            *place,
            name_after(alloc, from, to, column)?,
        )),
        Expr::Chain(first, links) => Ok(Expr::Chain(
            boxed_renamed(alloc, from, to, first.get())?,
            links_renamed(alloc, from, to, links.as_slice())?,
        )),
        Expr::Prefixed(operand, prefixes) => Ok(Expr::Prefixed(
            boxed_renamed(alloc, from, to, operand.get())?,
            Items::from_slice(alloc, prefixes.as_slice())?,
        )),
        Expr::Casts(operand, casts) => Ok(Expr::Casts(
            boxed_renamed(alloc, from, to, operand.get())?,
            Items::from_slice(alloc, casts.as_slice())?,
        )),
        Expr::IsNull(operand, tests) => Ok(Expr::IsNull(
            boxed_renamed(alloc, from, to, operand.get())?,
            Items::from_slice(alloc, tests.as_slice())?,
        )),
        Expr::Between(place, negated, value, low, high) => Ok(Expr::Between(
            *place,
            *negated,
            boxed_renamed(alloc, from, to, value.get())?,
            boxed_renamed(alloc, from, to, low.get())?,
            boxed_renamed(alloc, from, to, high.get())?,
        )),
        Expr::In(place, negated, value, items) => Ok(Expr::In(
            *place,
            *negated,
            boxed_renamed(alloc, from, to, value.get())?,
            items_renamed(alloc, from, to, items.as_slice())?,
        )),
        Expr::Coalesce(place, items) => Ok(Expr::Coalesce(
            *place,
            items_renamed(alloc, from, to, items.as_slice())?,
        )),
        Expr::Abs(place, operand) => Ok(Expr::Abs(
            *place,
            boxed_renamed(alloc, from, to, operand.get())?,
        )),
        Expr::Length(place, operand) => Ok(Expr::Length(
            *place,
            boxed_renamed(alloc, from, to, operand.get())?,
        )),
    }
}

/// A copy of the new name, where the name is the one that goes, else of the name.
fn name_after(alloc: Global, from: &Name, to: &Name, name: &Name) -> Result<Name, NoMemory>
    ensures { IfOk result (λ copy. copy ≡ (if same_name name.now from.now then to.now else name.now)) }
{
    if *name == *from {
        to.copied(alloc)
    } else {
        name.copied(alloc)
    }
}

#[cycle(renaming)]
fn boxed_renamed(
    alloc: Global,
    from: &Name,
    to: &Name,
    expr: &Expr,
) -> Result<Boxed<Expr>, NoMemory>
    ensures { IfOk result (λ copy. copy ≡ renamed from.now to.now expr.now) }
{
    let copy = renamed(alloc, from, to, expr)?;
    Ok(Boxed::new(alloc, copy)?)
}

#[tactic(auto, unfolding(crate::specs::Naming::items_renamed))]
#[cycle(renaming)]
fn items_renamed(
    alloc: Global,
    from: &Name,
    to: &Name,
    items: &[Expr],
) -> Result<Items<Expr>, NoMemory>
    ensures { IfOk result (λ copies. copies ≡ items_renamed from.now to.now items.now) }
{
    let mut copies = Items::new(alloc);
    for item in items {
        copies.push(renamed(alloc, from, to, item)?)?;
    }
    Ok(copies)
}

#[tactic(auto, unfolding(crate::specs::Naming::links_renamed))]
#[cycle(renaming)]
fn links_renamed(
    alloc: Global,
    from: &Name,
    to: &Name,
    links: &[(u32, Operator, Expr)],
) -> Result<Items<(u32, Operator, Expr)>, NoMemory>
    ensures { IfOk result (λ copies. copies ≡ links_renamed from.now to.now links.now) }
{
    let mut copies = Items::new(alloc);
    for link in links {
        copies.push((link.0, link.1, renamed(alloc, from, to, &link.2)?))?;
    }
    Ok(copies)
}
