ghost use Rattle.std.specs.Prelude.{◌≡◌, IfOk};
ghost use Rattle.al_expr.specs.Unplaced.{unplaced, row_unplaced, links_unplaced, items_unplaced};

use crate::{Expr, Operator};
use al_values::{Copied, NoMemory};
use sqlite_items::{Boxed, Items};
use std::alloc::Global;

/// A copy without places: all are 0. Two expressions differ in nothing but places where these copies are equal.
#[tactic(auto, using(crate::proofs::UnplacedNodes::unplaced_nodes))]
#[cycle(unplacing)]
pub fn without_places(alloc: Global, expr: &Expr) -> Result<Expr, NoMemory>
    ensures { IfOk result (λ copy. copy ≡ unplaced expr.now) }
{
    match expr {
        Expr::Literal(_, value) => Ok(Expr::Literal(0, value.copied(alloc)?)),
        Expr::Date(_, text) => Ok(Expr::Date(0, text.copied(alloc)?)),
        Expr::Column(_, name) => Ok(Expr::Column(0, name.copied(alloc)?)),
        Expr::Chain(first, links) => Ok(Expr::Chain(
            boxed_without(alloc, first.get())?,
            links_without(alloc, links.as_slice())?,
        )),
        Expr::Prefixed(operand, prefixes) => Ok(Expr::Prefixed(
            boxed_without(alloc, operand.get())?,
            row_without(alloc, prefixes.as_slice())?,
        )),
        Expr::Casts(operand, casts) => Ok(Expr::Casts(
            boxed_without(alloc, operand.get())?,
            row_without(alloc, casts.as_slice())?,
        )),
        Expr::IsNull(operand, tests) => Ok(Expr::IsNull(
            boxed_without(alloc, operand.get())?,
            row_without(alloc, tests.as_slice())?,
        )),
        Expr::Between(_, negated, value, low, high) => Ok(Expr::Between(
            0,
            *negated,
            boxed_without(alloc, value.get())?,
            boxed_without(alloc, low.get())?,
            boxed_without(alloc, high.get())?,
        )),
        Expr::In(_, negated, value, items) => Ok(Expr::In(
            0,
            *negated,
            boxed_without(alloc, value.get())?,
            items_without(alloc, items.as_slice())?,
        )),
        Expr::Coalesce(_, items) => Ok(Expr::Coalesce(0, items_without(alloc, items.as_slice())?)),
        Expr::Abs(_, operand) => Ok(Expr::Abs(0, boxed_without(alloc, operand.get())?)),
        Expr::Length(_, operand) => Ok(Expr::Length(0, boxed_without(alloc, operand.get())?)),
    }
}

#[cycle(unplacing)]
fn boxed_without(alloc: Global, expr: &Expr) -> Result<Boxed<Expr>, NoMemory>
    ensures { IfOk result (λ copy. copy ≡ unplaced expr.now) }
{
    let copy = without_places(alloc, expr)?;
    Ok(Boxed::new(alloc, copy)?)
}

#[tactic(auto, unfolding(crate::specs::Unplaced::items_unplaced))]
#[cycle(unplacing)]
fn items_without(alloc: Global, items: &[Expr]) -> Result<Items<Expr>, NoMemory>
    ensures { IfOk result (λ copies. copies ≡ items_unplaced items.now) }
{
    let mut copies = Items::new(alloc);
    for item in items {
        copies.push(without_places(alloc, item)?)?;
    }
    Ok(copies)
}

#[tactic(auto, unfolding(crate::specs::Unplaced::links_unplaced))]
#[cycle(unplacing)]
fn links_without(
    alloc: Global,
    links: &[(u32, Operator, Expr)],
) -> Result<Items<(u32, Operator, Expr)>, NoMemory>
    ensures { IfOk result (λ copies. copies ≡ links_unplaced links.now) }
{
    let mut copies = Items::new(alloc);
    for link in links {
        copies.push((0, link.1, without_places(alloc, &link.2)?))?;
    }
    Ok(copies)
}

fn row_without<T: Copy>(alloc: Global, row: &[(u32, T)]) -> Result<Items<(u32, T)>, NoMemory>
    ensures { IfOk result (λ copies. copies ≡ row_unplaced row.now) }
{
    let mut copies = Items::new(alloc);
    for item in row {
        copies.push((0, item.1))?;
    }
    Ok(copies)
}
