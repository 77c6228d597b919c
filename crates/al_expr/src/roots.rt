ghost use Rattle.std.specs.Prelude.{◌≡◌, true, Ok};
ghost use Rattle.al_values.specs.Gives.{GivesUnlessNoMemory};
ghost use Rattle.al_expr.specs.Kinds.{settled};
ghost use Rattle.al_expr.specs.Rows.{is_of, row_fits};
ghost use Rattle.al_expr.specs.Roots.{root_of, output_of, stored_as, stored_of, as_truth, truth_of, is_stored, is_assignable, IsSound, IsTruth};
ghost use Rattle.al_expr.specs.Typing.{kind_is};

use crate::evaluation::valued;
use crate::held::Held;
use crate::texts::{assigned_to, read_in};
use crate::{Column, ColumnList, EvalFault, Expr, Typed};
use al_values::{Cant, Kind, Row, Tri, Value, count_characters};
use std::alloc::Global;

/// The value of an expression on a row of these columns, or the first fault that evaluation meets: operands go from
/// left to right, AND stops at false, OR at true, BETWEEN and IN as these do, and coalesce at the first value that isn't
/// null (the manual, chapter 9). A string alone, which has no kind of its own, is a text, of at most 8,192 bytes.
///
/// Where the expression has a kind and the row fits the columns, the value is Null or one of that kind, and no fault says
/// that a conversion isn't there.
pub fn eval(
    alloc: Global,
    expr: &Expr,
    columns: &ColumnList,
    row: &Row,
) -> Result<Value, Cant<EvalFault>>
    ensures value { GivesUnlessNoMemory result (output_of (root_of expr.now columns.now row.now)) }
    ensures kind { (typed : Typed) → kind_is expr.now columns.now ≡ Ok typed → row_fits columns.now row.now ≡ true → IsSound (settled typed) result }
{
    output(alloc, expr, columns.as_slice(), row.as_slice())
}

/// The value of an expression as it is stored in a column of the kind (the manual, 10.4, Value Storage): a string that has
/// no kind of its own is read as the kind, and all else is assigned to it.
///
/// Where the expression's kind may be assigned and the row fits the columns, the value is Null or one of the kind.
pub fn eval_as(
    alloc: Global,
    expr: &Expr,
    columns: &ColumnList,
    row: &Row,
    kind: Kind,
) -> Result<Value, Cant<EvalFault>>
    ensures value { GivesUnlessNoMemory result (stored_of kind (root_of expr.now columns.now row.now)) }
    ensures kind { (typed : Typed) → kind_is expr.now columns.now ≡ Ok typed → is_assignable typed kind ≡ true → row_fits columns.now row.now ≡ true → IsSound kind result }
{
    stored(alloc, expr, columns.as_slice(), row.as_slice(), kind)
}

/// Whether a condition is true of a row, as WHERE and CHECK ask (the manual, 7.2.2 and 5.4.1): a string that has no kind
/// of its own is read as a boolean. A condition has a kind that `is_truth` takes.
pub fn truth_of(
    alloc: Global,
    expr: &Expr,
    columns: &ColumnList,
    row: &Row,
) -> Result<Tri, Cant<EvalFault>>
    ensures value { GivesUnlessNoMemory result (truth_of (root_of expr.now columns.now row.now)) }
    ensures kind { (typed : Typed) → kind_is expr.now columns.now ≡ Ok typed → row_fits columns.now row.now ≡ true → IsTruth result }
{
    condition(alloc, expr, columns.as_slice(), row.as_slice())
}

/// An output.
fn output(
    alloc: Global,
    expr: &Expr,
    columns: &[Column],
    row: &[Value],
) -> Result<Value, Cant<EvalFault>>
    ensures { GivesUnlessNoMemory result (output_of (root_of expr.now columns.now row.now)) }
{
    let (typed, value) = valued(alloc, expr, columns, row)?;
    let output = read_in(alloc, Kind::Text, typed, value)?;
    Ok(output.into_value(alloc)?)
}

/// A stored value.
fn stored(
    alloc: Global,
    expr: &Expr,
    columns: &[Column],
    row: &[Value],
    kind: Kind,
) -> Result<Value, Cant<EvalFault>>
    ensures { GivesUnlessNoMemory result (stored_of kind (root_of expr.now columns.now row.now)) }
{
    let (typed, value) = valued(alloc, expr, columns, row)?;
    stored_as(alloc, kind, typed, value)
}

/// A condition.
fn condition(
    alloc: Global,
    expr: &Expr,
    columns: &[Column],
    row: &[Value],
) -> Result<Tri, Cant<EvalFault>>
    ensures { GivesUnlessNoMemory result (truth_of (root_of expr.now columns.now row.now)) }
{
    let (typed, value) = valued(alloc, expr, columns, row)?;
    let truth = read_in(alloc, Kind::Boolean, typed, value)?;
    Ok(as_truth(truth.get()))
}

/// A value as it is stored.
fn stored_as(
    alloc: Global,
    kind: Kind,
    typed: Typed,
    value: Held<'_>,
) -> Result<Value, Cant<EvalFault>>
    ensures { GivesUnlessNoMemory result (stored_as kind typed value.entry) }
{
    match typed {
        Typed::Known(_) => assigned_to(alloc, value.get(), kind),
        Typed::Untyped => {
            let read = read_in(alloc, kind, Typed::Untyped, value)?;
            Ok(read.into_value(alloc)?)
        }
    }
}

/// A boolean as a truth value; what is none is neither true nor false.
pub(crate) fn as_truth(value: &Value) -> Tri
    ensures { result ≡ as_truth value.now }
{
    match value {
        Value::Bool(true) => Tri::Yes,
        Value::Bool(false) => Tri::No,
        _ => Tri::Unknown,
    }
}

/// Whether an expression of this kind may be stored in a column of the other (the manual, 10.4): what has no kind of its
/// own always.
pub fn is_assignable(typed: Typed, to: Kind) -> bool
    ensures { result ≡ is_assignable typed to }
{
    match typed {
        Typed::Known(from) => is_stored(from, to),
        Typed::Untyped => true,
    }
}

/// Whether there is an assignment from one kind to the other.
fn is_stored(from: Kind, to: Kind) -> bool
    ensures { result ≡ is_stored from to }
{
    match (from, to) {
        (_, Kind::Text | Kind::Varchar(_)) => true,
        (
            Kind::Smallint | Kind::Integer | Kind::Bigint,
            Kind::Smallint | Kind::Integer | Kind::Bigint,
        ) => true,
        (Kind::Boolean, Kind::Boolean) | (Kind::Date, Kind::Date) => true,
        _ => false,
    }
}

/// Whether a row fits columns: it has as many values as there are columns, each Null or one of its column's kind, in its
/// range (the manual, chapter 8). It takes no memory.
pub fn row_fits(columns: &ColumnList, row: &Row) -> bool
    ensures { result ≡ row_fits columns.now row.now }
{
    fits_all(columns.as_slice(), row.as_slice())
}

fn fits_all(columns: &[Column], row: &[Value]) -> bool
    ensures { result ≡ row_fits columns.now row.now }
{
    let mut rest = row;
    for column in columns {
        match rest {
            [value, later @ ..] => {
                if !is_of(column.kind, value) {
                    return false;
                }
                rest = later;
            }
            [] => return false,
        }
    }
    rest.is_empty()
}

/// Whether it is Null or a value of the kind.
fn is_of(kind: Kind, value: &Value) -> bool
    ensures { result ≡ is_of kind value.now }
{
    match (kind, value) {
        (_, Value::Null) => true,
        (_, Value::Int(number)) => kind.fits(*number),
        (Kind::Boolean, Value::Bool(_)) | (Kind::Text, Value::Text(_)) => true,
        (Kind::Varchar(most), Value::Text(text)) => count_characters(text.as_str())
            <= most as usize,
        (Kind::Date, Value::Day(day)) => -719_162 <= *day && *day <= 2_932_896,
        _ => false,
    }
}
