ghost use Rattle.std.specs.Prelude.{◌≡◌, IfOk};
ghost use Rattle.al_expr.specs.Nominal.{nominal, chain_gives, prefixed_gives, casts_gives, shared_by, links_nominal, items_nominal};
ghost use Rattle.al_expr.specs.Typing.{kind_is, literal_kind, ruled, alike, first_kind, chain_kind, prefixed_kind, casts_kind, tests_kind, shared_kind, links_kinds, items_kinds};

use crate::column::column_kind;
use crate::kinds::{
    cast_kind, common, common_with, length_kind, operator_kind, prefix_kind, settled, signed_kind,
};
use crate::{Column, ColumnList, Expr, Operator, Prefix, TypeFault, Typed};
use al_values::{Kind, Value};

/// The kind of an expression on these columns, or the first node in reading order that is at fault (the manual,
/// chapter 10). A node with an operand at fault is no fault of its own.
pub fn kind_of(expr: &Expr, columns: &ColumnList) -> Result<Typed, TypeFault>
    ensures kind { result ≡ kind_is expr.now columns.now }
    ensures nominal { IfOk result (λ typed. nominal expr.now columns.now ≡ typed) }
{
    typed(expr, columns.as_slice())
}

#[tactic(auto, using(crate::proofs::KindNodes::kind_nodes, crate::proofs::NominalNodes::nominal_nodes, crate::proofs::NominalLemmas::node_agrees))]
#[cycle(typing)]
fn typed(expr: &Expr, columns: &[Column]) -> Result<Typed, TypeFault>
    ensures kind { result ≡ kind_is expr.now columns.now }
    ensures nominal { IfOk result (λ typed. nominal expr.now columns.now ≡ typed) }
{
    match expr {
        Expr::Literal(_, value) => Ok(literal_kind(value)),
        Expr::Date(_, _) => Ok(Typed::Known(Kind::Date)),
        Expr::Column(place, name) => match column_kind(columns, name) {
            Some(kind) => Ok(Typed::Known(kind)),
            None => Err(TypeFault::NoColumn { place: *place }),
        },
        Expr::Chain(first, links) => {
            let left = typed(first.get(), columns)?;
            typed_chain(left, links.as_slice(), columns)
        }
        Expr::Prefixed(operand, prefixes) => {
            let inner = typed(operand.get(), columns)?;
            typed_prefixes(inner, prefixes.as_slice())
        }
        Expr::Casts(operand, casts) => {
            let inner = typed(operand.get(), columns)?;
            typed_casts(inner, casts.as_slice())
        }
        Expr::IsNull(operand, tests) => {
            let inner = typed(operand.get(), columns)?;
            Ok(typed_tests(inner, tests.as_slice()))
        }
        Expr::Between(place, _, value, low, high) => {
            let value = typed(value.get(), columns)?;
            let low = typed(low.get(), columns)?;
            let high = typed(high.get(), columns)?;
            alike(*place, common_with(common(value, low), high))
        }
        Expr::In(place, _, value, items) => {
            let value = typed(value.get(), columns)?;
            let shared = typed_items(Some(value), items.as_slice(), columns)?;
            alike(*place, shared)
        }
        Expr::Coalesce(place, items) => {
            let shared = typed_items(Some(Typed::Untyped), items.as_slice(), columns)?;
            first_kind(*place, shared)
        }
        Expr::Abs(place, operand) => {
            let inner = typed(operand.get(), columns)?;
            ruled(*place, signed_kind(inner))
        }
        Expr::Length(place, operand) => {
            let inner = typed(operand.get(), columns)?;
            ruled(*place, length_kind(inner))
        }
    }
}

/// Operators in a row.
#[tactic(auto, using(crate::proofs::NominalLemmas::operator_agrees), unfolding(crate::specs::Typing::links_kinds, crate::specs::Nominal::links_nominal))]
#[cycle(typing)]
fn typed_chain(
    first: Typed,
    links: &[(u32, Operator, Expr)],
    columns: &[Column],
) -> Result<Typed, TypeFault>
    ensures kind { result ≡ chain_kind first (links_kinds columns.now links.now) }
    ensures nominal { IfOk result (λ typed. chain_gives first (links_nominal columns.now links.now) ≡ typed) }
{
    let mut left = first;
    for link in links {
        let right = typed(&link.2, columns)?;
        left = ruled(link.0, operator_kind(link.1, left, right))?;
    }
    Ok(left)
}

/// The kind that operands share with what stands before them.
#[tactic(auto, unfolding(crate::specs::Typing::items_kinds, crate::specs::Nominal::items_nominal))]
#[cycle(typing)]
fn typed_items(
    first: Option<Typed>,
    items: &[Expr],
    columns: &[Column],
) -> Result<Option<Typed>, TypeFault>
    ensures kind { result ≡ shared_kind first (items_kinds columns.now items.now) }
    ensures nominal { IfOk result (λ shared. shared_by first (items_nominal columns.now items.now) ≡ shared) }
{
    let mut before = first;
    for item in items {
        before = common_with(before, typed(item, columns)?);
    }
    Ok(before)
}

/// NOTs and signs in a row.
#[tactic(auto, using(crate::proofs::NominalLemmas::prefix_agrees))]
fn typed_prefixes(inner: Typed, prefixes: &[(u32, Prefix)]) -> Result<Typed, TypeFault>
    ensures kind { result ≡ prefixed_kind inner prefixes.now }
    ensures nominal { IfOk result (λ typed. prefixed_gives inner prefixes.now ≡ typed) }
{
    let mut typed = inner;
    for (place, prefix) in prefixes {
        typed = ruled(*place, prefix_kind(*prefix, typed))?;
    }
    Ok(typed)
}

/// Casts in a row.
#[tactic(auto, using(crate::proofs::NominalLemmas::cast_agrees))]
fn typed_casts(inner: Typed, casts: &[(u32, Kind)]) -> Result<Typed, TypeFault>
    ensures kind { result ≡ casts_kind inner casts.now }
    ensures nominal { IfOk result (λ typed. casts_gives inner casts.now ≡ typed) }
{
    let mut typed = inner;
    for (place, to) in casts {
        typed = ruled(*place, cast_kind(typed, *to))?;
    }
    Ok(typed)
}

/// IS NULL in a row.
pub(crate) fn typed_tests(inner: Typed, tests: &[(u32, bool)]) -> Typed
    ensures { result ≡ tests_kind inner tests.now }
{
    match tests {
        [] => inner,
        _ => Typed::Known(Kind::Boolean),
    }
}

/// The kind of a literal.
pub(crate) fn literal_kind(value: &Value) -> Typed
    ensures { result ≡ literal_kind value.now }
{
    match value {
        Value::Int(number) if i32::try_from(*number).is_ok() => Typed::Known(Kind::Integer),
        Value::Int(_) => Typed::Known(Kind::Bigint),
        Value::Bool(_) => Typed::Known(Kind::Boolean),
        Value::Day(_) => Typed::Known(Kind::Date),
        Value::Null | Value::Text(_) => Typed::Untyped,
    }
}

/// A kind, or the fault of the node at the place.
fn ruled(place: u32, kind: Option<Kind>) -> Result<Typed, TypeFault>
    ensures { result ≡ ruled place kind }
{
    match kind {
        Some(kind) => Ok(Typed::Known(kind)),
        None => Err(TypeFault::WrongKind { place }),
    }
}

/// A boolean where the operands share a kind.
fn alike(place: u32, shared: Option<Typed>) -> Result<Typed, TypeFault>
    ensures { result ≡ alike place shared }
{
    ruled(place, shared.map(|_| Kind::Boolean))
}

/// The kind that the operands share.
fn first_kind(place: u32, shared: Option<Typed>) -> Result<Typed, TypeFault>
    ensures { result ≡ first_kind place shared }
{
    ruled(place, shared.map(settled))
}
