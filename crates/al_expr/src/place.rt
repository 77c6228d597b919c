ghost use Rattle.std.specs.Prelude.{◌≡◌};
ghost use Rattle.al_expr.specs.Places.{place_is, last_place, last_link_place};

use crate::{Expr, Operator};

/// The place of an expression's root: where operators stand in a row, of the last one.
#[tactic(auto, using(crate::proofs::PlaceNodes::place_nodes))]
pub fn place_of(expr: &Expr) -> u32
    ensures { result ≡ place_is expr.now }
{
    match expr {
        Expr::Literal(place, _)
        | Expr::Date(place, _)
        | Expr::Column(place, _)
        | Expr::Between(place, _, _, _, _)
        | Expr::In(place, _, _, _)
        | Expr::Coalesce(place, _)
        | Expr::Abs(place, _)
        | Expr::Length(place, _) => *place,
        Expr::Chain(first, links) => last_link_place(place_of(first.get()), links.as_slice()),
        Expr::Prefixed(operand, prefixes) => last_place(
            place_of(operand.get()),
            prefixes.as_slice(),
        ),
        Expr::Casts(operand, casts) => last_place(place_of(operand.get()), casts.as_slice()),
        Expr::IsNull(operand, tests) => last_place(place_of(operand.get()), tests.as_slice()),
    }
}

/// The place of the last item, or the one before the row.
fn last_place<T>(before: u32, row: &[(u32, T)]) -> u32
    ensures { result ≡ last_place before row.now }
{
    let mut place = before;
    for item in row {
        place = item.0;
    }
    place
}

/// The place of the last operator, or the one before the row.
fn last_link_place(before: u32, links: &[(u32, Operator, Expr)]) -> u32
    ensures { result ≡ last_link_place before links.now }
{
    let mut place = before;
    for link in links {
        place = link.0;
    }
    place
}
