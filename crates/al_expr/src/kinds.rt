ghost use Rattle.std.specs.Prelude.{◌≡◌};
ghost use Rattle.al_expr.specs.Kinds as table;

use crate::{Arithmetic, Operator, Prefix};
use al_values::Kind;

/// The kind of an expression.
#[derive(Clone, Copy, Debug, PartialEq, Eq)]
pub enum Typed {
    /// A kind of its own.
    Known(Kind),
    /// A string or NULL, which takes the kind that its place wants (the manual, 10.2).
    Untyped,
}

/// Why an expression has no kind: the first node in reading order that is at fault.
#[derive(Clone, Copy, Debug, PartialEq, Eq)]
pub enum TypeFault {
    /// A name that no column has.
    NoColumn {
        /// The byte at which the name begins.
        place: u32,
    },
    /// An operator or a function whose operands are of kinds that it doesn't take.
    WrongKind {
        /// The byte at which the operator begins.
        place: u32,
    },
}

/// Whether an expression of this kind may stand where a boolean is wanted: beside AND, OR and NOT, in WHERE and in CHECK.
pub fn is_truth(typed: Typed) -> bool
    ensures { result ≡ table.is_truth typed }
{
    match typed {
        Typed::Known(Kind::Boolean) | Typed::Untyped => true,
        Typed::Known(_) => false,
    }
}

/// Whether it may stand where a text is wanted.
pub(crate) fn is_text(typed: Typed) -> bool
    ensures { result ≡ table.is_text typed }
{
    match typed {
        Typed::Known(Kind::Text | Kind::Varchar(_)) | Typed::Untyped => true,
        Typed::Known(_) => false,
    }
}

/// The wider of two integer kinds.
pub(crate) fn wider(a: Kind, b: Kind) -> Option<Kind>
    ensures { result ≡ table.wider a b }
{
    match (a, b) {
        (Kind::Smallint, Kind::Smallint) => Some(Kind::Smallint),
        (Kind::Smallint | Kind::Integer, Kind::Smallint | Kind::Integer) => Some(Kind::Integer),
        (
            Kind::Smallint | Kind::Integer | Kind::Bigint,
            Kind::Smallint | Kind::Integer | Kind::Bigint,
        ) => Some(Kind::Bigint),
        _ => None,
    }
}

/// The kind in which two kinds of one group meet.
pub(crate) fn shared(a: Kind, b: Kind) -> Option<Kind>
    ensures { result ≡ table.shared a b }
{
    match (a, b) {
        (Kind::Boolean, Kind::Boolean) => Some(Kind::Boolean),
        (Kind::Text | Kind::Varchar(_), Kind::Text | Kind::Varchar(_)) => Some(Kind::Text),
        (Kind::Date, Kind::Date) => Some(Kind::Date),
        _ => wider(a, b),
    }
}

/// The kind that two operands share.
pub(crate) fn common(a: Typed, b: Typed) -> Option<Typed>
    ensures { result ≡ table.common a b }
{
    let kind = match (a, b) {
        (Typed::Known(a), Typed::Known(b)) => shared(a, b)?,
        (Typed::Known(kind), Typed::Untyped) | (Typed::Untyped, Typed::Known(kind)) => {
            shared(kind, kind)?
        }
        (Typed::Untyped, Typed::Untyped) => return Some(Typed::Untyped),
    };
    Some(Typed::Known(kind))
}

/// The kind that one operand more shares with those before it.
pub(crate) fn common_with(before: Option<Typed>, typed: Typed) -> Option<Typed>
    ensures { result ≡ table.common_with before typed }
{
    common(before?, typed)
}

/// The kind of operands that share one; where they have none, they are texts.
pub(crate) fn settled(typed: Typed) -> Kind
    ensures { result ≡ table.settled typed }
{
    match typed {
        Typed::Known(kind) => kind,
        Typed::Untyped => Kind::Text,
    }
}

/// The kind of arithmetic on two kinds.
pub(crate) fn calculated_kind(operator: Arithmetic, a: Kind, b: Kind) -> Option<Kind>
    ensures { result ≡ table.calculated_kind operator a b }
{
    match (operator, a, b) {
        (Arithmetic::Add, Kind::Date, whole) | (Arithmetic::Add, whole, Kind::Date) => {
            wider(whole, whole)?;
            Some(Kind::Date)
        }
        (Arithmetic::Subtract, Kind::Date, Kind::Date) => Some(Kind::Integer),
        (Arithmetic::Subtract, Kind::Date, whole) => {
            wider(whole, whole)?;
            Some(Kind::Date)
        }
        _ => wider(a, b),
    }
}

/// The kind of arithmetic on two operands.
pub(crate) fn arithmetic_kind(operator: Arithmetic, a: Typed, b: Typed) -> Option<Kind>
    ensures { result ≡ table.arithmetic_kind operator a b }
{
    match (a, b) {
        (Typed::Known(a), Typed::Known(b)) => calculated_kind(operator, a, b),
        (Typed::Known(kind), Typed::Untyped) | (Typed::Untyped, Typed::Known(kind)) => {
            calculated_kind(operator, kind, kind)
        }
        (Typed::Untyped, Typed::Untyped) => None,
    }
}

/// The kind that a binary operator gives.
pub(crate) fn operator_kind(operator: Operator, a: Typed, b: Typed) -> Option<Kind>
    ensures { result ≡ table.operator_kind operator a b }
{
    match operator {
        Operator::Or | Operator::And => (is_truth(a) && is_truth(b)).then_some(Kind::Boolean),
        Operator::Compare(_) => common(a, b).map(|_| Kind::Boolean),
        Operator::Concat => (is_text(a) && is_text(b)).then_some(Kind::Text),
        Operator::Calculate(arithmetic) => arithmetic_kind(arithmetic, a, b),
    }
}

/// The kind that a sign or abs gives.
pub(crate) fn signed_kind(typed: Typed) -> Option<Kind>
    ensures { result ≡ table.signed_kind typed }
{
    match typed {
        Typed::Known(kind) => wider(kind, kind),
        Typed::Untyped => None,
    }
}

/// The kind that NOT or a sign gives.
pub(crate) fn prefix_kind(prefix: Prefix, typed: Typed) -> Option<Kind>
    ensures { result ≡ table.prefix_kind prefix typed }
{
    match prefix {
        Prefix::Not => is_truth(typed).then_some(Kind::Boolean),
        Prefix::Minus | Prefix::Plus => signed_kind(typed),
    }
}

/// The kind that length gives.
pub(crate) fn length_kind(typed: Typed) -> Option<Kind>
    ensures { result ≡ table.length_kind typed }
{
    is_text(typed).then_some(Kind::Integer)
}

/// Whether there is a written cast from one kind to another.
pub(crate) fn is_castable(from: Kind, to: Kind) -> bool
    ensures { result ≡ table.is_castable from to }
{
    match (from, to) {
        (Kind::Text | Kind::Varchar(_), _) | (_, Kind::Text | Kind::Varchar(_)) => true,
        (Kind::Boolean, Kind::Boolean | Kind::Integer) | (Kind::Integer, Kind::Boolean) => true,
        (Kind::Date, Kind::Date) => true,
        (
            Kind::Smallint | Kind::Integer | Kind::Bigint,
            Kind::Smallint | Kind::Integer | Kind::Bigint,
        ) => true,
        _ => false,
    }
}

/// The kind that a cast gives.
pub(crate) fn cast_kind(typed: Typed, to: Kind) -> Option<Kind>
    ensures { result ≡ table.cast_kind typed to }
{
    match typed {
        Typed::Known(from) => is_castable(from, to).then_some(to),
        Typed::Untyped => Some(to),
    }
}
