ghost use Rattle.std.specs.Prelude.{◌≡◌};
ghost use Rattle.al_expr.specs.Nominal as table;

use crate::column::column_kind;
use crate::kinds::{arithmetic_kind, common_with, settled};
use crate::typing::{literal_kind, typed_tests};
use crate::{Column, Expr, Operator, Prefix, Typed};
use al_values::Kind;

/// The kind of an expression that has one, without looking for faults.
#[tactic(auto, using(crate::proofs::NominalNodes::nominal_nodes))]
#[cycle(nominal)]
pub(crate) fn nominal(expr: &Expr, columns: &[Column]) -> Typed
    ensures { result ≡ table.nominal expr.now columns.now }
{
    match expr {
        Expr::Literal(_, value) => literal_kind(value),
        Expr::Date(_, _) => Typed::Known(Kind::Date),
        Expr::Column(_, name) => as_typed(column_kind(columns, name)),
        Expr::Chain(first, links) => {
            let left = nominal(first.get(), columns);
            nominal_chain(left, links.as_slice(), columns)
        }
        Expr::Prefixed(operand, prefixes) => {
            let inner = nominal(operand.get(), columns);
            prefixed_gives(inner, prefixes.as_slice())
        }
        Expr::Casts(operand, casts) => {
            let inner = nominal(operand.get(), columns);
            casts_gives(inner, casts.as_slice())
        }
        Expr::IsNull(operand, tests) => {
            let inner = nominal(operand.get(), columns);
            typed_tests(inner, tests.as_slice())
        }
        Expr::Between(_, _, _, _, _) | Expr::In(_, _, _, _) => Typed::Known(Kind::Boolean),
        Expr::Coalesce(_, items) => {
            let shared = nominal_items(Some(Typed::Untyped), items.as_slice(), columns);
            Typed::Known(met(shared))
        }
        Expr::Abs(_, operand) => nominal(operand.get(), columns),
        Expr::Length(_, _) => Typed::Known(Kind::Integer),
    }
}

/// What operators in a row give.
#[tactic(auto, unfolding(crate::specs::Nominal::links_nominal))]
#[cycle(nominal)]
fn nominal_chain(first: Typed, links: &[(u32, Operator, Expr)], columns: &[Column]) -> Typed
    ensures { result ≡ table.chain_gives first (table.links_nominal columns.now links.now) }
{
    let mut left = first;
    for link in links {
        left = operator_gives(link.1, left, nominal(&link.2, columns));
    }
    left
}

/// The kind that operands share with what stands before them.
#[tactic(auto, unfolding(crate::specs::Nominal::items_nominal))]
#[cycle(nominal)]
pub(crate) fn nominal_items(
    first: Option<Typed>,
    items: &[Expr],
    columns: &[Column],
) -> Option<Typed>
    ensures { result ≡ table.shared_by first (table.items_nominal columns.now items.now) }
{
    let mut before = first;
    for item in items {
        before = common_with(before, nominal(item, columns));
    }
    before
}

/// A kind that was found.
pub(crate) fn as_typed(kind: Option<Kind>) -> Typed
    ensures { result ≡ table.as_typed kind }
{
    match kind {
        Some(kind) => Typed::Known(kind),
        None => Typed::Untyped,
    }
}

/// The kind in which operands of one group meet.
pub(crate) fn met(shared: Option<Typed>) -> Kind
    ensures { result ≡ table.met shared }
{
    match shared {
        Some(typed) => settled(typed),
        None => Kind::Text,
    }
}

/// What a binary operator gives.
pub(crate) fn operator_gives(operator: Operator, a: Typed, b: Typed) -> Typed
    ensures { result ≡ table.operator_gives operator a b }
{
    match operator {
        Operator::Or | Operator::And | Operator::Compare(_) => Typed::Known(Kind::Boolean),
        Operator::Concat => Typed::Known(Kind::Text),
        Operator::Calculate(arithmetic) => as_typed(arithmetic_kind(arithmetic, a, b)),
    }
}

/// What NOT or a sign gives.
pub(crate) fn prefix_gives(prefix: Prefix, typed: Typed) -> Typed
    ensures { result ≡ table.prefix_gives prefix typed }
{
    match prefix {
        Prefix::Not => Typed::Known(Kind::Boolean),
        Prefix::Minus | Prefix::Plus => typed,
    }
}

/// What NOTs and signs in a row give.
pub(crate) fn prefixed_gives(inner: Typed, prefixes: &[(u32, Prefix)]) -> Typed
    ensures { result ≡ table.prefixed_gives inner prefixes.now }
{
    let mut typed = inner;
    for (_, prefix) in prefixes {
        typed = prefix_gives(*prefix, typed);
    }
    typed
}

/// What casts in a row give.
pub(crate) fn casts_gives(inner: Typed, casts: &[(u32, Kind)]) -> Typed
    ensures { result ≡ table.casts_gives inner casts.now }
{
    let mut typed = inner;
    for (_, to) in casts {
        typed = Typed::Known(*to);
    }
    typed
}
