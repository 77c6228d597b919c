use al_expr::Expr;
use sqlite_items::Items;

/// What stands behind a value: BETWEEN or IN, or NOT before them (true), with the place of the first word.
#[derive(Debug, Drop)]
pub enum Tail {
    /// The two ends.
    Between(u32, bool, Expr, Expr),
    /// The list.
    In(u32, bool, Items<Expr>),
}
