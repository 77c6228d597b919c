ghost use Rattle.std.specs.Prelude.{◌≡◌, Some, IfOk};
ghost use Rattle.al_values.specs.Printed.{printed};
ghost use Rattle.al_values.specs.Reading.{IsReadAgain};

use crate::{Copied, NoMemory, Txt, days};
use std::alloc::Global;
use std::fmt;

/// A value of a column.
#[derive(Debug, PartialEq, Eq, Drop)]
pub enum Value {
    /// No value.
    Null,
    /// A boolean.
    Bool(bool),
    /// An integer of any of the integer kinds.
    Int(i64),
    /// A text, of whichever kind.
    Text(Txt),
    /// A day: how many days it lies after 1 January 1970.
    Day(i32),
}

impl Copied for Value {
    fn copied(&self, alloc: Global) -> Result<Value, NoMemory> {
        Ok(match self {
            Value::Null => Value::Null,
            Value::Bool(truth) => Value::Bool(*truth),
            Value::Int(number) => Value::Int(*number),
            Value::Text(text) => Value::Text(text.copied(alloc)?),
            Value::Day(day) => Value::Day(*day),
        })
    }
}

/// As in a report: an integer in decimal, a boolean as `t` or `f`, a text as it is, a day as YYYY-MM-DD, Null as
/// nothing. A day outside the years 1 to 9999, which no statement gives, is printed by its number.
impl fmt::Display for Value {
    ghost output = { λ value. Some (printed value) };

    #[tactic(auto, using(crate::proofs::DayTexts::dated_text, crate::proofs::DayTexts::number_text))]
    fn fmt<W: fmt::Write>(&self, f: &mut fmt::Formatter<W>) -> fmt::Result {
        match self {
            Value::Null => Ok(()),
            Value::Bool(truth) => f.write_str(if *truth { "t" } else { "f" }),
            Value::Int(number) => write!(f, "{number}"),
            Value::Text(text) => write!(f, "{text}"),
            Value::Day(number) => match days::civil(i64::from(*number)) {
                Some((year, month, day)) => write!(f, "{year:04}-{month:02}-{day:02}"),
                None => write!(f, "{number}"),
            },
        }
    }
}

/// A value as a report prints it. A kind that has the value reads it again from the text, but for Null.
#[tactic(auto, using(crate::proofs::ReadAgain::read_again))]
pub fn print(alloc: Global, v: &Value) -> Result<Txt, NoMemory>
    ensures value { IfOk result (λ text. text ≡ printed v.now) }
    ensures again { IfOk result (λ text. IsReadAgain v.now text) }
{
    Ok(Txt::from_string(format!(in alloc; "{v}")?))
}
