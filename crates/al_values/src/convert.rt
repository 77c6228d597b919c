ghost use Rattle.std.specs.Prelude.{◌≡◌, IfOk};
ghost use Rattle.al_values.specs.declared.scalar.Value.TheVariants as values;
ghost use Rattle.al_values.specs.Gives.{GivesUnlessNoMemory};
ghost use Rattle.al_values.specs.Convert.{assigned, casted, text_of, spelled_into};
ghost use Rattle.al_values.specs.Reading.{stored_text, ranged as number_in};
ghost use Rattle.al_values.specs.Characters.{first_characters};

use crate::{Cant, CastFault, Kind, NoMemory, Txt, Value, characters, print, read};
use std::alloc::Global;

/// What is stored of a value in a column of the kind (manual, 10.4, Value Storage). Null becomes Null. Integers go
/// between the integer kinds: OutOfRange outside the kind. Everything goes into a text as it is printed, a boolean as
/// `true` or `false`; where the kind has a length, characters past it go if they are spaces, and else it is TooLong.
/// Booleans and days go into their own kinds. All else is NoCast.
pub fn assign(alloc: Global, v: &Value, to: Kind) -> Result<Value, Cant<CastFault>>
    ensures { GivesUnlessNoMemory result (assigned v.now to) }
{
    match v {
        Value::Null => Ok(Value::Null),
        Value::Bool(truth) => match to {
            Kind::Boolean => Ok(Value::Bool(*truth)),
            _ => spelled(alloc, v, to),
        },
        Value::Int(number) => match to {
            Kind::Smallint | Kind::Integer | Kind::Bigint => ranged(*number, to),
            _ => spelled(alloc, v, to),
        },
        Value::Text(text) => match to {
            Kind::Varchar(most) => stored(alloc, text.as_str(), most),
            _ => spelled(alloc, v, to),
        },
        Value::Day(day) => match to {
            Kind::Date => Ok(Value::Day(*day)),
            _ => spelled(alloc, v, to),
        },
    }
}

/// What a written cast makes of a value (manual, 4.2.9, Type Casts). A text is read into the kind; into a text with a
/// length the characters past it go, whatever they are; true and false become 1 and 0 in integer, and an integer
/// becomes true unless it is 0. All else is as in `assign`.
pub fn cast(alloc: Global, v: &Value, to: Kind) -> Result<Value, Cant<CastFault>>
    ensures { GivesUnlessNoMemory result (casted v.now to) }
{
    match to {
        Kind::Varchar(most) => match v {
            Value::Null => Ok(Value::Null),
            Value::Text(text) => cut(alloc, text.as_str(), most),
            _ => cut(alloc, worded(alloc, v)?.as_str(), most),
        },
        _ => match v {
            Value::Text(text) => read(alloc, text, to),
            Value::Bool(truth) if to == Kind::Integer => Ok(Value::Int(i64::from(*truth))),
            Value::Int(number) if to == Kind::Boolean => Ok(Value::Bool(*number != 0)),
            _ => assign(alloc, v, to),
        },
    }
}

/// The number, where the kind has it.
pub(crate) fn ranged(number: i64, to: Kind) -> Result<Value, Cant<CastFault>>
    ensures { GivesUnlessNoMemory result (number_in to number) }
{
    if to.fits(number) {
        Ok(Value::Int(number))
    } else {
        Err(Cant::Why(CastFault::OutOfRange))
    }
}

/// A value that goes into a text, or nowhere.
fn spelled(alloc: Global, v: &Value, to: Kind) -> Result<Value, Cant<CastFault>>
    ensures { GivesUnlessNoMemory result (spelled_into (text_of v.now) to) }
{
    match to {
        Kind::Text => Ok(Value::Text(worded(alloc, v)?)),
        Kind::Varchar(most) => stored(alloc, worded(alloc, v)?.as_str(), most),
        _ => Err(Cant::Why(CastFault::NoCast)),
    }
}

/// A text that is stored with at most so many characters: past them it may have spaces alone, which go.
pub(crate) fn stored(alloc: Global, text: &str, most: u32) -> Result<Value, Cant<CastFault>>
    ensures { GivesUnlessNoMemory result (stored_text most text.now) }
{
    if characters::is_spaces_after(text, most) {
        cut(alloc, text, most)
    } else {
        Err(Cant::Why(CastFault::TooLong))
    }
}

/// The first characters of a text, at most so many.
fn cut(alloc: Global, text: &str, most: u32) -> Result<Value, Cant<CastFault>>
    ensures { GivesUnlessNoMemory result (Ok (values.Text (first_characters most text.now))) }
{
    Ok(Value::Text(Txt::new(alloc, characters::first(text, most))?))
}

/// A value as a text: a boolean by its whole word, all else as it is printed.
fn worded(alloc: Global, v: &Value) -> Result<Txt, NoMemory>
    ensures { IfOk result (λ text. text ≡ text_of v.now) }
{
    match v {
        Value::Bool(truth) => Txt::new(alloc, if *truth { "true" } else { "false" }),
        _ => print(alloc, v),
    }
}
