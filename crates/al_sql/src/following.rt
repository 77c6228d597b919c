use al_expr::Expr;
use al_modes::RowMode;
use al_statements::{SortKeyList, Target};
use al_values::NameList;

/// What follows the first name of DROP TABLE.
#[derive(Debug, Drop)]
pub(crate) enum Following {
    /// EXISTS and the tables, where the name was IF.
    Exists(NameList),
    /// The other tables.
    Names(NameList),
}

/// What stands from FROM on.
#[derive(Debug, Drop)]
pub(crate) struct Rest {
    /// The table.
    pub(crate) target: Target,
    /// What stands after WHERE.
    pub(crate) condition: Option<Expr>,
    /// What stands after ORDER BY.
    pub(crate) order: SortKeyList,
    /// How FOR locks the rows.
    pub(crate) lock: Option<RowMode>,
}
