ghost use Rattle.std.specs.Prelude.{◌≡◌};
ghost use Rattle.al_schema.specs.Naming.{names, links_naming, items_naming, in_chain, in_list};

use al_expr::{Expr, Operator};
use al_values::Name;

/// Whether an expression names a column.
#[tactic(auto, using(crate::proofs::NamingNodes::naming_nodes))]
#[cycle(naming)]
pub fn names(expr: &Expr, name: &Name) -> bool
    ensures { result ≡ names expr.now name.now }
{
    match expr {
        Expr::Literal(_, _) | Expr::Date(_, _) => false,
        Expr::Column(_, column) => *column == *name,
        Expr::Chain(first, links) => {
            let before = names(first.get(), name);
            names_in_links(before, links.as_slice(), name)
        }
        Expr::Prefixed(operand, _) => names(operand.get(), name),
        Expr::Casts(operand, _) => names(operand.get(), name),
        Expr::IsNull(operand, _) => names(operand.get(), name),
        Expr::Between(_, _, value, low, high) => {
            let first = names(value.get(), name);
            let second = names(low.get(), name);
            let third = names(high.get(), name);
            first || second || third
        }
        Expr::In(_, _, value, items) => {
            let before = names(value.get(), name);
            names_in_items(before, items.as_slice(), name)
        }
        Expr::Coalesce(_, items) => names_in_items(false, items.as_slice(), name),
        Expr::Abs(_, operand) => names(operand.get(), name),
        Expr::Length(_, operand) => names(operand.get(), name),
    }
}

#[tactic(auto, unfolding(crate::specs::Naming::links_naming))]
#[cycle(naming)]
fn names_in_links(before: bool, links: &[(u32, Operator, Expr)], name: &Name) -> bool
    ensures { result ≡ in_chain before (links_naming name.now links.now) }
{
    let mut found = before;
    for link in links {
        let here = names(&link.2, name);
        found = found || here;
    }
    found
}

#[tactic(auto, unfolding(crate::specs::Naming::items_naming))]
#[cycle(naming)]
fn names_in_items(before: bool, items: &[Expr], name: &Name) -> bool
    ensures { result ≡ in_list before (items_naming name.now items.now) }
{
    let mut found = before;
    for item in items {
        let here = names(item, name);
        found = found || here;
    }
    found
}
