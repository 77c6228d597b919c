ghost use Rattle.std.specs.Prelude.{◌≡◌};
ghost use Rattle.al_expr.specs.Values as table;

use crate::kinds::{common, settled};
use crate::nominal::met;
use crate::{Comparison, EvalFault, Operator, Typed};
use al_values::{Kind, Value, compare};
use std::cmp::Ordering;

/// AND of three values.
pub(crate) fn both(a: &Value, b: &Value) -> Value
    ensures { result ≡ table.both a.now b.now }
{
    match (a, b) {
        (Value::Bool(false), _) | (_, Value::Bool(false)) => Value::Bool(false),
        (Value::Bool(true), Value::Bool(true)) => Value::Bool(true),
        _ => Value::Null,
    }
}

/// OR of three values.
pub(crate) fn either(a: &Value, b: &Value) -> Value
    ensures { result ≡ table.either a.now b.now }
{
    match (a, b) {
        (Value::Bool(true), _) | (_, Value::Bool(true)) => Value::Bool(true),
        (Value::Bool(false), Value::Bool(false)) => Value::Bool(false),
        _ => Value::Null,
    }
}

/// NOT.
pub(crate) fn denied(value: &Value) -> Value
    ensures { result ≡ table.denied value.now }
{
    match value {
        Value::Bool(truth) => Value::Bool(!*truth),
        _ => Value::Null,
    }
}

/// NOT before BETWEEN or IN, where it is written.
pub(crate) fn denied_if(negated: bool, value: Value) -> Value
    ensures { result ≡ table.denied_if negated value }
{
    if negated { denied(&value) } else { value }
}

/// Whether it is null.
pub(crate) fn is_null(value: &Value) -> bool
    ensures { result ≡ table.is_null value.now }
{
    matches!(value, Value::Null)
}

/// IS NULL, or IS NOT NULL.
pub(crate) fn tested(negated: bool, value: &Value) -> Value
    ensures { result ≡ table.tested negated value.now }
{
    Value::Bool(if negated {
        !is_null(value)
    } else {
        is_null(value)
    })
}

/// Whether the left side decides what AND or OR gives.
pub(crate) fn decides(operator: Operator, left: &Value) -> bool
    ensures { result ≡ table.decides operator left.now }
{
    match (operator, left) {
        (Operator::Or, Value::Bool(true)) | (Operator::And, Value::Bool(false)) => true,
        _ => false,
    }
}

/// Whether a comparison is true of two values in this order.
fn holds(comparison: Comparison, order: Ordering) -> bool
    ensures { result ≡ table.holds comparison order }
{
    match comparison {
        Comparison::Equal => order == Ordering::Equal,
        Comparison::NotEqual => order != Ordering::Equal,
        Comparison::Less => order == Ordering::Less,
        Comparison::LessOrEqual => order != Ordering::Greater,
        Comparison::Greater => order == Ordering::Greater,
        Comparison::GreaterOrEqual => order != Ordering::Less,
    }
}

/// What a comparison gives.
pub(crate) fn related(comparison: Comparison, a: &Value, b: &Value) -> Value
    ensures { result ≡ table.related comparison a.now b.now }
{
    match compare(a, b) {
        Some(order) => Value::Bool(holds(comparison, order)),
        None => Value::Null,
    }
}

/// The kind as which an operand is read that has none of its own.
pub(crate) fn operand_kind(operator: Operator, a: Typed, b: Typed) -> Kind
    ensures { result ≡ table.operand_kind operator a b }
{
    match (operator, a) {
        (Operator::Or | Operator::And, _) => Kind::Boolean,
        (Operator::Concat, _) => Kind::Text,
        (Operator::Compare(_), _) => met(common(a, b)),
        (Operator::Calculate(_), Typed::Known(kind)) => kind,
        (Operator::Calculate(_), Typed::Untyped) => settled(b),
    }
}
