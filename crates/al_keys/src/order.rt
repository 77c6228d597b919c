ghost use Rattle.std.specs.Prelude.{◌≡◌, not};
ghost use Rattle.std.specs.Ordering.{is_eq};
ghost use Rattle.al_keys.specs.Order.{sort_of, number_of, text_of, value_order, key_order, has_null, is_null};

use al_values::Value;
use std::cmp::Ordering;

fn sort_of(value: &Value) -> u8
    ensures { result ≡ sort_of value.now }
{
    match value {
        Value::Null => 0,
        Value::Bool(_) => 1,
        Value::Int(_) => 2,
        Value::Text(_) => 3,
        Value::Day(_) => 4,
    }
}

fn number_of(value: &Value) -> i64
    ensures { result ≡ number_of value.now }
{
    match value {
        Value::Bool(truth) => { if *truth { 1 } else { 0 } }
        Value::Int(number) => *number,
        Value::Day(day) => i64::from(*day),
        _ => 0,
    }
}

fn text_of(value: &Value) -> &[u8]
    ensures { result.now ≡ text_of value.now }
{
    match value {
        Value::Text(text) => text.as_bytes(),
        _ => &[],
    }
}

/// The order of two values: by their sorts, then by number or text.
fn value_order(a: &Value, b: &Value) -> Ordering
    ensures { result ≡ value_order a.now b.now }
{
    let sorts = sort_of(a).cmp(&sort_of(b));
    let numbers = number_of(a).cmp(&number_of(b));
    let texts = text_of(a).cmp(text_of(b));
    sorts.then(numbers.then(texts))
}

/// The order of two keys.
pub fn key_order(a: &[Value], b: &[Value]) -> Ordering
    ensures { result ≡ key_order a.now b.now }
{
    let least = a.len().min(b.len());
    for at in 0..least {
        let order = value_order(&a[at], &b[at]);
        if is_decided(order) {
            return order;
        }
    }
    if a.len() < b.len() {
        Ordering::Less
    } else if b.len() < a.len() {
        Ordering::Greater
    } else {
        Ordering::Equal
    }
}

fn is_decided(order: Ordering) -> bool
    ensures { result ≡ not (is_eq order) }
{
    match order {
        Ordering::Equal => false,
        Ordering::Less => true,
        Ordering::Greater => true,
    }
}

fn is_null(value: &Value) -> bool
    ensures { result ≡ is_null value.now }
{
    match value {
        Value::Null => true,
        _ => false,
    }
}

/// Whether a key has a null.
pub fn has_null(key: &[Value]) -> bool
    ensures { result ≡ has_null key.now }
{
    key.iter().any(|value| is_null(value))
}
