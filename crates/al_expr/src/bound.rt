use crate::{EvalFault, Operator, Prefix, Typed};
use al_values::{Kind, Value};
use sqlite_items::{Boxed, Items};

/// A binary operator, with what the kinds of its sides say of it.
#[derive(Clone, Copy, Debug, PartialEq, Eq)]
pub struct Joint {
    /// The operator.
    pub operator: Operator,
    /// The kind of its left side.
    pub left: Typed,
    /// The kind as which a side is read that has none of its own.
    pub operands: Kind,
    /// The kind that it gives.
    pub gives: Kind,
}

/// An expression whose names are bound to the places of their columns, once for many rows. What its kinds say is worked
/// out, and literals are read as the kinds that their places want.
#[derive(Debug, Drop)]
pub enum Bound {
    /// A value that no row changes.
    Fixed(Value),
    /// A fault that each row meets.
    Faulty(EvalFault),
    /// The value at a place of the row.
    Place(usize),
    /// Binary operators in a row: the first operand, then each operator with its right side.
    Chain(Boxed<Bound>, Items<(Joint, Bound)>),
    /// NOTs and signs in a row: the operand with its kind, then each from the inside.
    Prefixed(Typed, Boxed<Bound>, Items<(u32, Prefix)>),
    /// Casts in a row, from the inside.
    Casts(Boxed<Bound>, Items<(u32, Kind)>),
    /// IS NULL and IS NOT NULL (true) in a row, from the inside.
    IsNull(Boxed<Bound>, Items<(u32, bool)>),
    /// BETWEEN, or NOT BETWEEN (true): the value and the two ends.
    Between(bool, Boxed<Bound>, Boxed<Bound>, Boxed<Bound>),
    /// IN, or NOT IN (true): the value and the list.
    In(bool, Boxed<Bound>, Items<Bound>),
    /// The first value that isn't null.
    Coalesce(Items<Bound>),
    /// An integer of the kind without its sign.
    Abs(Kind, Boxed<Bound>),
    /// How many characters a text has.
    Length(Boxed<Bound>),
    /// A value that has no kind of its own, read as the kind.
    Read(Kind, Boxed<Bound>),
    /// A value that is assigned to the kind.
    Store(Kind, Boxed<Bound>),
}
