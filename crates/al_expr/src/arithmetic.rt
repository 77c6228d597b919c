ghost use Rattle.std.specs.Prelude.{◌≡◌, ◌+ℤ◌, ◌-ℤ◌, ◌*ℤ◌, neg_ℤ, pos, unsigned_abs};
ghost use Rattle.std.specs.Int.RustNames.{int_div, int_rem};
ghost use Rattle.al_values.specs.Kinds.{fits};
ghost use Rattle.al_expr.specs.Values as table;

use crate::held::Held;
use crate::{Arithmetic, EvalFault};
use al_values::{Kind, Value};

/// Whether a number is one of an integer kind.
fn fits(kind: Kind, number: i64) -> bool
    ensures { result ≡ fits kind number }
{
    match kind {
        Kind::Smallint => -32_768 <= number && number <= 32_767,
        Kind::Integer => -2_147_483_648 <= number && number <= 2_147_483_647,
        Kind::Bigint => true,
        Kind::Boolean | Kind::Text | Kind::Varchar(_) | Kind::Date => false,
    }
}

/// A number of the kind.
pub(crate) fn in_kind(kind: Kind, number: i64) -> Result<Value, EvalFault>
    ensures { result ≡ table.in_kind kind number }
{
    if fits(kind, number) {
        Ok(Value::Int(number))
    } else {
        Err(EvalFault::Range)
    }
}

/// A day of the years 1 to 9999.
fn in_calendar(day: i64) -> Result<Value, EvalFault>
    ensures { result ≡ table.in_calendar day }
{
    if -719_162 <= day && day <= 2_932_896 {
        Ok(Value::Day(day as i32))
    } else {
        Err(EvalFault::Range)
    }
}

fn sum(kind: Kind, a: i64, b: i64) -> Result<Value, EvalFault>
    ensures { result ≡ table.in_kind kind (a +ℤ b) }
{
    match a.checked_add(b) {
        Some(number) => in_kind(kind, number),
        None => Err(EvalFault::Range),
    }
}

fn difference(kind: Kind, a: i64, b: i64) -> Result<Value, EvalFault>
    ensures { result ≡ table.in_kind kind (a -ℤ b) }
{
    match a.checked_sub(b) {
        Some(number) => in_kind(kind, number),
        None => Err(EvalFault::Range),
    }
}

fn product(kind: Kind, a: i64, b: i64) -> Result<Value, EvalFault>
    ensures { result ≡ table.in_kind kind (a *ℤ b) }
{
    match a.checked_mul(b) {
        Some(number) => in_kind(kind, number),
        None => Err(EvalFault::Range),
    }
}

fn quotient(kind: Kind, a: i64, b: i64) -> Result<Value, EvalFault>
    ensures { result ≡ table.calculated Arithmetic.Divide kind (Value.Int a) (Value.Int b) }
{
    if b == 0 {
        return Err(EvalFault::DivZero);
    }
    match a.checked_div(b) {
        Some(number) => in_kind(kind, number),
        None => Err(EvalFault::Range),
    }
}

fn remainder(kind: Kind, a: i64, b: i64) -> Result<Value, EvalFault>
    ensures { result ≡ table.calculated Arithmetic.Remainder kind (Value.Int a) (Value.Int b) }
{
    if b == 0 {
        return Err(EvalFault::DivZero);
    }
    match a.checked_rem(b) {
        Some(number) => in_kind(kind, number),
        None => in_kind(kind, 0),
    }
}

fn later(day: i32, days: i64) -> Result<Value, EvalFault>
    ensures { result ≡ table.in_calendar (day +ℤ days) }
{
    match i64::from(day).checked_add(days) {
        Some(day) => in_calendar(day),
        None => Err(EvalFault::Range),
    }
}

fn earlier(day: i32, days: i64) -> Result<Value, EvalFault>
    ensures { result ≡ table.in_calendar (day -ℤ days) }
{
    match i64::from(day).checked_sub(days) {
        Some(day) => in_calendar(day),
        None => Err(EvalFault::Range),
    }
}

/// Arithmetic on two values, where the operator gives the kind.
pub(crate) fn calculated(
    operator: Arithmetic,
    kind: Kind,
    a: &Value,
    b: &Value,
) -> Result<Value, EvalFault>
    ensures { result ≡ table.calculated operator kind a.now b.now }
{
    match (operator, a, b) {
        (Arithmetic::Add, Value::Int(a), Value::Int(b)) => sum(kind, *a, *b),
        (Arithmetic::Add, Value::Day(day), Value::Int(days)) => later(*day, *days),
        (Arithmetic::Add, Value::Int(days), Value::Day(day)) => later(*day, *days),
        (Arithmetic::Subtract, Value::Int(a), Value::Int(b)) => difference(kind, *a, *b),
        (Arithmetic::Subtract, Value::Day(day), Value::Int(days)) => earlier(*day, *days),
        (Arithmetic::Subtract, Value::Day(a), Value::Day(b)) => {
            difference(kind, i64::from(*a), i64::from(*b))
        }
        (Arithmetic::Multiply, Value::Int(a), Value::Int(b)) => product(kind, *a, *b),
        (Arithmetic::Divide, Value::Int(a), Value::Int(b)) => quotient(kind, *a, *b),
        (Arithmetic::Remainder, Value::Int(a), Value::Int(b)) => remainder(kind, *a, *b),
        _ => Ok(Value::Null),
    }
}

/// A literal, with its number or its day in range.
pub(crate) fn literal_value<'a>(value: &'a Value) -> Result<Held<'a>, EvalFault>
    ensures { result ≡ table.literal_value value.now }
{
    match value {
        Value::Int(number) => Ok(Held::own(in_kind(Kind::Bigint, *number)?)),
        Value::Day(day) => Ok(Held::own(in_calendar(i64::from(*day))?)),
        Value::Null | Value::Bool(_) | Value::Text(_) => Ok(Held::lent(value)),
    }
}

/// The number with the other sign.
pub(crate) fn minus(kind: Kind, value: &Value) -> Result<Value, EvalFault>
    ensures { result ≡ table.minus kind value.now }
{
    match value {
        Value::Int(number) => match number.checked_neg() {
            Some(number) => in_kind(kind, number),
            None => Err(EvalFault::Range),
        },
        _ => Ok(Value::Null),
    }
}

/// The number without its sign.
pub(crate) fn absolute(kind: Kind, value: &Value) -> Result<Value, EvalFault>
    ensures { result ≡ table.absolute kind value.now }
{
    match value {
        Value::Int(number) => match i64::try_from(number.unsigned_abs()) {
            Ok(number) => in_kind(kind, number),
            Err(_) => Err(EvalFault::Range),
        },
        _ => Ok(Value::Null),
    }
}
