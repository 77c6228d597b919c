ghost use Rattle.std.specs.Prelude.{◌≡◌, ◌↔◌, IsTrue};

use crate::{Expr, Operator, Prefix};
use al_values::Kind;

/// Whether two expressions are equal, their places included.
#[cycle(sameness)]
pub fn same(a: &Expr, b: &Expr) -> bool
    ensures { IsTrue result ↔ (a.now ≡ b.now) }
{
    match (a, b) {
        (Expr::Literal(place, value), Expr::Literal(other_place, other)) => place == other_place
            && value == other,
        (Expr::Date(place, text), Expr::Date(other_place, other)) => place == other_place
            && text == other,
        (Expr::Column(place, name), Expr::Column(other_place, other)) => place == other_place
            && name == other,
        (Expr::Chain(first, links), Expr::Chain(other, others)) => {
            same(first.get(), other.get()) && same_links(links.as_slice(), others.as_slice())
        }
        (Expr::Prefixed(operand, prefixes), Expr::Prefixed(other, others)) => {
            same(operand.get(), other.get())
                && same_prefixes(prefixes.as_slice(), others.as_slice())
        }
        (Expr::Casts(operand, casts), Expr::Casts(other, others)) => {
            same(operand.get(), other.get()) && same_casts(casts.as_slice(), others.as_slice())
        }
        (Expr::IsNull(operand, tests), Expr::IsNull(other, others)) => {
            same(operand.get(), other.get()) && same_tests(tests.as_slice(), others.as_slice())
        }
        (
            Expr::Between(place, negated, value, low, high),
            Expr::Between(other_place, other_negated, other, other_low, other_high),
        ) => {
            place == other_place
                && negated == other_negated
                && same(value.get(), other.get())
                && same(low.get(), other_low.get())
                && same(high.get(), other_high.get())
        }
        (
            Expr::In(place, negated, value, items),
            Expr::In(other_place, other_negated, other, others),
        ) => {
            place == other_place
                && negated == other_negated
                && same(value.get(), other.get())
                && same_items(items.as_slice(), others.as_slice())
        }
        (Expr::Coalesce(place, items), Expr::Coalesce(other_place, others)) => {
            place == other_place && same_items(items.as_slice(), others.as_slice())
        }
        (Expr::Abs(place, operand), Expr::Abs(other_place, other)) => place == other_place
            && same(operand.get(), other.get()),
        (Expr::Length(place, operand), Expr::Length(other_place, other)) => place == other_place
            && same(operand.get(), other.get()),
        _ => false,
    }
}

#[cycle(sameness)]
fn same_items(items: &[Expr], others: &[Expr]) -> bool
    ensures { IsTrue result ↔ (items.now ≡ others.now) }
{
    if items.len() != others.len() {
        return false;
    }
    for (at, item) in items.iter().enumerate() {
        if !same(item, &others[at]) {
            return false;
        }
    }
    true
}

#[cycle(sameness)]
fn same_links(links: &[(u32, Operator, Expr)], others: &[(u32, Operator, Expr)]) -> bool
    ensures { IsTrue result ↔ (links.now ≡ others.now) }
{
    if links.len() != others.len() {
        return false;
    }
    for (at, link) in links.iter().enumerate() {
        let other = &others[at];
        if link.0 != other.0 || link.1 != other.1 || !same(&link.2, &other.2) {
            return false;
        }
    }
    true
}

fn same_prefixes(prefixes: &[(u32, Prefix)], others: &[(u32, Prefix)]) -> bool
    ensures { IsTrue result ↔ (prefixes.now ≡ others.now) }
{
    if prefixes.len() != others.len() {
        return false;
    }
    for (at, prefix) in prefixes.iter().enumerate() {
        let other = &others[at];
        if prefix.0 != other.0 || prefix.1 != other.1 {
            return false;
        }
    }
    true
}

fn same_casts(casts: &[(u32, Kind)], others: &[(u32, Kind)]) -> bool
    ensures { IsTrue result ↔ (casts.now ≡ others.now) }
{
    if casts.len() != others.len() {
        return false;
    }
    for (at, cast) in casts.iter().enumerate() {
        let other = &others[at];
        if cast.0 != other.0 || cast.1 != other.1 {
            return false;
        }
    }
    true
}

fn same_tests(tests: &[(u32, bool)], others: &[(u32, bool)]) -> bool
    ensures { IsTrue result ↔ (tests.now ≡ others.now) }
{
    if tests.len() != others.len() {
        return false;
    }
    for (at, test) in tests.iter().enumerate() {
        let other = &others[at];
        if test.0 != other.0 || test.1 != other.1 {
            return false;
        }
    }
    true
}
