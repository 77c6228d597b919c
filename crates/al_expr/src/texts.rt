ghost use Rattle.std.specs.Prelude.{◌≡◌, ◌++◌, IfOk, MatchResult};
ghost use Rattle.al_values.specs.Characters.{characters};
ghost use Rattle.al_values.specs.Convert.{assigned, casted};
ghost use Rattle.al_values.specs.Gives.{GivesUnlessNoMemory};
ghost use Rattle.al_values.specs.Reading.{read_as};
ghost use Rattle.al_expr.specs.Values as table;

use crate::arithmetic::{calculated, in_kind, minus};
use crate::held::Held;
use crate::kinds::settled;
use crate::values::{both, denied, either, related};
use crate::{EvalFault, Operator, Prefix, Typed};
use al_values::{Cant, Copied, Kind, NoMemory, Txt, Value, assign, cast, read};
use std::alloc::Global;

/// How many bytes a text may have.
const MOST_BYTES: usize = 8192;

/// A value, where it is no text of too many bytes.
fn bounded(value: Value) -> Result<Value, EvalFault>
    ensures { result ≡ table.bounded value }
{
    let bytes = bytes_of(&value);
    if bytes <= MOST_BYTES {
        Ok(value)
    } else {
        Err(EvalFault::TooLong {
            bytes: bytes as u64,
        })
    }
}

/// How many bytes the text has; 0 for what is no text.
fn bytes_of(value: &Value) -> usize
    ensures { result ≡ table.text_bytes value.now }
{
    match value {
        Value::Text(text) => text.as_bytes().len(),
        _ => 0,
    }
}

/// What a text is read as, where it has no kind of its own.
pub(crate) fn read_text(alloc: Global, text: &Txt, kind: Kind) -> Result<Value, Cant<EvalFault>>
    ensures { GivesUnlessNoMemory result (table.converted (read_as text.now kind)) }
{
    match read(alloc, text, kind) {
        Ok(value) => bounded(value).map_err(Cant::Why),
        Err(Cant::Why(fault)) => Err(Cant::Why(EvalFault::Cast(fault))),
        Err(Cant::NoMemory) => Err(Cant::NoMemory),
    }
}

/// What a written cast makes of a value.
pub(crate) fn cast_to(alloc: Global, value: &Value, kind: Kind) -> Result<Value, Cant<EvalFault>>
    ensures { GivesUnlessNoMemory result (table.converted (casted value.now kind)) }
{
    match cast(alloc, value, kind) {
        Ok(value) => bounded(value).map_err(Cant::Why),
        Err(Cant::Why(fault)) => Err(Cant::Why(EvalFault::Cast(fault))),
        Err(Cant::NoMemory) => Err(Cant::NoMemory),
    }
}

/// What is stored of a value in a column of the kind.
pub(crate) fn assigned_to(
    alloc: Global,
    value: &Value,
    kind: Kind,
) -> Result<Value, Cant<EvalFault>>
    ensures { GivesUnlessNoMemory result (table.converted (assigned value.now kind)) }
{
    match assign(alloc, value, kind) {
        Ok(value) => bounded(value).map_err(Cant::Why),
        Err(Cant::Why(fault)) => Err(Cant::Why(EvalFault::Cast(fault))),
        Err(Cant::NoMemory) => Err(Cant::NoMemory),
    }
}

/// A value as its place wants it: a string that has no kind of its own is read as the kind. A text stays where it is.
pub(crate) fn read_in<'a>(
    alloc: Global,
    kind: Kind,
    typed: Typed,
    value: Held<'a>,
) -> Result<Held<'a>, Cant<EvalFault>>
    ensures { GivesUnlessNoMemory result (table.read_in kind typed value.entry) }
{
    match typed {
        Typed::Known(_) => Ok(value),
        Typed::Untyped => read_untyped(alloc, kind, value),
    }
}

/// A value that has no kind of its own, read as the kind.
fn read_untyped<'a>(alloc: Global, kind: Kind, value: Held<'a>) -> Result<Held<'a>, Cant<EvalFault>>
    ensures { GivesUnlessNoMemory result (table.read_in kind Typed.Untyped value.entry) }
{
    if kind == Kind::Text || is_not_text(value.get()) {
        match within_limit(value.get()) {
            Ok(()) => Ok(value),
            Err(fault) => Err(Cant::Why(fault)),
        }
    } else {
        let read = read_value(alloc, value.get(), kind)?;
        Ok(Held::own(read))
    }
}

/// Whether it is no text.
fn is_not_text(value: &Value) -> bool
    ensures { result ≡ table.is_not_text value.now }
{
    !matches!(value, Value::Text(_))
}

/// Tests the limit on the bytes of a text.
fn within_limit(value: &Value) -> Result<(), EvalFault>
    ensures { MatchResult result (λ _. table.bounded value.now ≡ Ok value.now) (λ fault. table.bounded value.now ≡ Err fault) }
{
    let bytes = bytes_of(value);
    if bytes <= MOST_BYTES {
        Ok(())
    } else {
        Err(EvalFault::TooLong {
            bytes: bytes as u64,
        })
    }
}

/// What a text is read as; what is no text has no memory of its own, and is copied.
fn read_value(alloc: Global, value: &Value, kind: Kind) -> Result<Value, Cant<EvalFault>>
    ensures { GivesUnlessNoMemory result (table.read_in kind Typed.Untyped value.now) }
{
    match value {
        Value::Text(text) => read_text(alloc, text, kind),
        _ => Ok(value.copied(alloc)?),
    }
}

/// One text after another.
pub(crate) fn joined(alloc: Global, a: &Value, b: &Value) -> Result<Value, Cant<EvalFault>>
    ensures { GivesUnlessNoMemory result (table.joined a.now b.now) }
{
    match (a, b) {
        (Value::Text(a), Value::Text(b)) => {
            let bytes = a.as_bytes().len() + b.as_bytes().len();
            if bytes > MOST_BYTES {
                return Err(Cant::Why(EvalFault::TooLong {
                    bytes: bytes as u64,
                }));
            }
            Ok(Value::Text(concatenated(alloc, a, b)?))
        }
        _ => Ok(Value::Null),
    }
}

/// The bytes of both texts.
fn concatenated(alloc: Global, a: &Txt, b: &Txt) -> Result<Txt, NoMemory>
    ensures { IfOk result (λ text. text ≡ a.now ++ b.now) }
{
    let mut text = String::from_str(alloc, a.as_str())?;
    text.push_str(b.as_str())?;
    Ok(Txt::from_string(text))
}

/// How many characters a text has.
pub(crate) fn measured(value: &Value) -> Result<Value, EvalFault>
    ensures { result ≡ table.measured value.now }
{
    match value {
        Value::Text(text) => match i64::try_from(characters(text.as_bytes())) {
            Ok(count) => in_kind(Kind::Integer, count),
            Err(_) => Err(EvalFault::Range),
        },
        _ => Ok(Value::Null),
    }
}

/// How many bytes begin a character.
fn characters(text: &[u8]) -> usize
    ensures { result ≡ characters text.now }
{
    text.iter()
        .filter(|byte| **byte < 0x80 || 0xC0 <= **byte)
        .count()
}

/// What a binary operator gives, where the kind that it gives is known.
pub(crate) fn operated(
    alloc: Global,
    operator: Operator,
    kind: Kind,
    a: &Value,
    b: &Value,
) -> Result<Value, Cant<EvalFault>>
    ensures { GivesUnlessNoMemory result (table.operated operator kind a.now b.now) }
{
    match operator {
        Operator::Or => Ok(either(a, b)),
        Operator::And => Ok(both(a, b)),
        Operator::Compare(comparison) => Ok(related(comparison, a, b)),
        Operator::Concat => joined(alloc, a, b),
        Operator::Calculate(arithmetic) => calculated(arithmetic, kind, a, b).map_err(Cant::Why),
    }
}

/// What NOT or a sign gives.
pub(crate) fn prefix_value<'a>(
    alloc: Global,
    prefix: Prefix,
    typed: Typed,
    value: Held<'a>,
) -> Result<Held<'a>, Cant<EvalFault>>
    ensures { GivesUnlessNoMemory result (table.prefix_value prefix typed value.entry) }
{
    match prefix {
        Prefix::Not => {
            let truth = read_in(alloc, Kind::Boolean, typed, value)?;
            Ok(Held::own(denied(truth.get())))
        }
        Prefix::Minus => {
            let number = minus(settled(typed), value.get()).map_err(Cant::Why)?;
            Ok(Held::own(number))
        }
        Prefix::Plus => Ok(value),
    }
}
