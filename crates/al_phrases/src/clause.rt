use al_expr::Expr;
use al_values::Name;

/// A constraint in the definition of a column, which has that column as its only one.
#[derive(Debug, Drop)]
pub(crate) enum Part {
    /// CHECK, and whether NO INHERIT stands behind it.
    Check(Expr, bool),
    /// UNIQUE.
    Unique,
    /// PRIMARY KEY.
    PrimaryKey,
    /// REFERENCES: the table, and its column.
    References(Name, Option<Name>),
}

/// What stands in the definition of a column behind its kind.
#[derive(Debug, Drop)]
pub(crate) enum Clause {
    /// DEFAULT.
    Default(Expr),
    /// NOT NULL.
    NotNull,
    /// A constraint, with the name after CONSTRAINT.
    Constraint(Option<Name>, Part),
}

/// What stands at most once in the definition of a column: whether it stood there.
#[derive(Clone, Copy, Debug)]
pub(crate) struct Seen {
    /// DEFAULT.
    pub(crate) default: bool,
    /// PRIMARY KEY.
    pub(crate) primary_key: bool,
}
