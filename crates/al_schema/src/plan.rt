use crate::{Link, Shape};
use al_expr::{EvalFault, Expr};
use al_values::{IdList, ListOf, Name, Value};

/// A rule that rows are tested for.
#[derive(Debug, Drop)]
pub enum Tested {
    /// The column takes no null.
    NotNull { column: u32 },
    /// The CHECK of this place among the constraints.
    Check { constraint: u32 },
    /// A foreign key.
    Foreign { link: Link },
}

/// Rules to test, one after another.
pub type TestedList = ListOf<Tested>;

/// Which rule a row breaks, or which fault it has.
#[derive(Clone, Copy, Debug, PartialEq, Eq, Drop)]
pub enum Broken {
    /// A null in a column that takes none.
    NotNull { column: u32 },
    /// The CHECK of this place isn't true or null on it.
    Check { constraint: u32 },
    /// That CHECK has a fault on it.
    Eval { constraint: u32, fault: EvalFault },
    /// The USING expression of a column, or the assignment of its value, has a fault on it.
    Using { column: u32, fault: EvalFault },
}

/// Whether the rows of a table are written anew.
#[derive(Clone, Copy, Debug, PartialEq, Eq)]
pub enum Work {
    /// They stay as they are.
    None,
    /// They are written anew.
    Rewrite,
}

/// Where a column's value in a new row comes from.
#[derive(Debug, Drop)]
pub enum Source {
    /// From a slot of the row as it was.
    Old { slot: u32 },
    /// From an expression over the columns as they were.
    Using { expr: Expr },
    /// It is the value that the column was added with.
    Added { value: Value },
}

/// Sources, one for each column.
pub type SourceList = ListOf<Source>;

/// What an ALTER TABLE does to one table.
#[derive(Debug, Drop)]
pub struct Planned {
    /// The table.
    pub table: u32,
    /// Its shape before the command, by which stored rows are read and over whose columns USING is evaluated.
    pub old: Shape,
    /// Its name from now on.
    pub name: Name,
    /// Its shape from now on.
    pub shape: Shape,
    /// Its parents from now on.
    pub parents: IdList,
    /// Whether its rows are written anew.
    pub work: Work,
    /// Where the columns' values come from.
    pub from: SourceList,
    /// The rules to test.
    pub tests: TestedList,
    /// The keys to build, by their places among the constraints.
    pub keys: IdList,
}

/// The tables of a plan, in family order.
pub type PlannedList = ListOf<Planned>;

/// What an ALTER TABLE does.
#[derive(Debug, Drop)]
pub struct Plan {
    /// Its tables, in family order.
    pub tables: PlannedList,
}
