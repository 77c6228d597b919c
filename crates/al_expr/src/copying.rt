ghost use Rattle.std.specs.Prelude.{◌≡◌, IfOk};

use crate::{Expr, Operator};
use al_values::{Copied, NoMemory};
use sqlite_items::{Boxed, Items};
use std::alloc::Global;

impl Copied for Expr {
    fn copied(&self, alloc: Global) -> Result<Expr, NoMemory> {
        copy_of(alloc, self)
    }
}

#[cycle(copying)]
fn copy_of(alloc: Global, expr: &Expr) -> Result<Expr, NoMemory>
    ensures { IfOk result (λ copy. copy ≡ expr.now) }
{
    match expr {
        Expr::Literal(place, value) => Ok(Expr::Literal(*place, value.copied(alloc)?)),
        Expr::Date(place, text) => Ok(Expr::Date(*place, text.copied(alloc)?)),
        Expr::Column(place, name) => Ok(Expr::Column(*place, name.copied(alloc)?)),
        Expr::Chain(first, links) => Ok(Expr::Chain(
            boxed_copy(alloc, first.get())?,
            copy_of_links(alloc, links.as_slice())?,
        )),
        Expr::Prefixed(operand, prefixes) => Ok(Expr::Prefixed(
            boxed_copy(alloc, operand.get())?,
            Items::from_slice(alloc, prefixes.as_slice())?,
        )),
        Expr::Casts(operand, kinds) => Ok(Expr::Casts(
            boxed_copy(alloc, operand.get())?,
            Items::from_slice(alloc, kinds.as_slice())?,
        )),
        Expr::IsNull(operand, tests) => Ok(Expr::IsNull(
            boxed_copy(alloc, operand.get())?,
            Items::from_slice(alloc, tests.as_slice())?,
        )),
        Expr::Between(place, negated, value, low, high) => Ok(Expr::Between(
            *place,
            *negated,
            boxed_copy(alloc, value.get())?,
            boxed_copy(alloc, low.get())?,
            boxed_copy(alloc, high.get())?,
        )),
        Expr::In(place, negated, value, items) => Ok(Expr::In(
            *place,
            *negated,
            boxed_copy(alloc, value.get())?,
            copies_of(alloc, items.as_slice())?,
        )),
        Expr::Coalesce(place, items) => {
            Ok(Expr::Coalesce(*place, copies_of(alloc, items.as_slice())?))
        }
        Expr::Abs(place, operand) => Ok(Expr::Abs(*place, boxed_copy(alloc, operand.get())?)),
        Expr::Length(place, operand) => Ok(Expr::Length(*place, boxed_copy(alloc, operand.get())?)),
    }
}

#[cycle(copying)]
fn boxed_copy(alloc: Global, expr: &Expr) -> Result<Boxed<Expr>, NoMemory>
    ensures { IfOk result (λ copy. copy ≡ expr.now) }
{
    let copy = copy_of(alloc, expr)?;
    Ok(Boxed::new(alloc, copy)?)
}

#[cycle(copying)]
fn copies_of(alloc: Global, items: &[Expr]) -> Result<Items<Expr>, NoMemory>
    ensures { IfOk result (λ copies. copies ≡ items.now) }
{
    let mut copies = Items::new(alloc);
    for item in items {
        copies.push(copy_of(alloc, item)?)?;
    }
    Ok(copies)
}

#[cycle(copying)]
fn copy_of_links(
    alloc: Global,
    links: &[(u32, Operator, Expr)],
) -> Result<Items<(u32, Operator, Expr)>, NoMemory>
    ensures { IfOk result (λ copies. copies ≡ links.now) }
{
    let mut copies = Items::new(alloc);
    for link in links {
        copies.push((link.0, link.1, copy_of(alloc, &link.2)?))?;
    }
    Ok(copies)
}
