use al_expr::Expr;
use al_values::Kind;

/// What ALTER COLUMN does to its column.
#[derive(Debug, Drop)]
pub(crate) enum Action {
    /// TYPE: the new kind, and what stands after USING.
    Type(Kind, Option<Expr>),
    /// SET DEFAULT.
    SetDefault(Expr),
    /// DROP DEFAULT.
    DropDefault,
    /// SET NOT NULL.
    SetNotNull,
    /// DROP NOT NULL.
    DropNotNull,
    /// SET STATISTICS.
    SetStatistics(i64),
}
