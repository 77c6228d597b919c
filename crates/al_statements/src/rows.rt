use crate::Target;
use crate::optional::copy_of_optional;
use al_expr::Expr;
use al_values::{Copied, ListOf, Name, NameList, NoMemory};
use std::alloc::Global;

/// What is given for one column.
#[derive(Debug, Drop)]
pub enum Slot {
    /// A value.
    Value(Expr),
    /// DEFAULT: the column's default.
    Default,
}

/// The slots of one row, one or more.
pub type Tuple = ListOf<Slot>;

/// Tuples in written order.
pub type TupleList = ListOf<Tuple>;

/// SELECT .. FROM generate_series(..): a row for each number (the manual, 9.25).
#[derive(Debug, Drop)]
pub struct Series {
    /// What each row has, one or more expressions over the number.
    pub outputs: ListOf<Expr>,
    /// The first number.
    pub first: i64,
    /// The last number.
    pub last: i64,
    /// The number's name.
    pub name: Name,
}

/// Which rows an INSERT gives.
#[derive(Debug, Drop)]
pub enum InsertRows {
    /// VALUES and one tuple or more.
    Values(TupleList),
    /// A row for each number of a series.
    Series(Series),
}

/// INSERT.
#[derive(Debug, Drop)]
pub struct Insert {
    /// The table.
    pub table: Name,
    /// The columns, where a list is written.
    pub columns: Option<NameList>,
    /// The rows.
    pub rows: InsertRows,
}

/// A column of SET, and what it becomes.
#[derive(Debug, Drop)]
pub struct Assignment {
    /// The column.
    pub column: Name,
    /// What it becomes.
    pub slot: Slot,
}

/// Assignments in written order.
pub type AssignmentList = ListOf<Assignment>;

/// UPDATE.
#[derive(Debug, Drop)]
pub struct Update {
    /// The table.
    pub target: Target,
    /// What stands after SET, one or more.
    pub assignments: AssignmentList,
    /// What stands after WHERE.
    pub condition: Option<Expr>,
}

/// DELETE.
#[derive(Debug, Drop)]
pub struct Delete {
    /// The table.
    pub target: Target,
    /// What stands after WHERE.
    pub condition: Option<Expr>,
}

impl Copied for Slot {
    fn copied(&self, alloc: Global) -> Result<Slot, NoMemory> {
        match self {
            Slot::Value(expr) => Ok(Slot::Value(expr.copied(alloc)?)),
            Slot::Default => Ok(Slot::Default),
        }
    }
}

impl Copied for Series {
    fn copied(&self, alloc: Global) -> Result<Series, NoMemory> {
        Ok(Series {
            outputs: self.outputs.copied(alloc)?,
            first: self.first,
            last: self.last,
            name: self.name.copied(alloc)?,
        })
    }
}

impl Copied for InsertRows {
    fn copied(&self, alloc: Global) -> Result<InsertRows, NoMemory> {
        match self {
            InsertRows::Values(tuples) => Ok(InsertRows::Values(tuples.copied(alloc)?)),
            InsertRows::Series(series) => Ok(InsertRows::Series(series.copied(alloc)?)),
        }
    }
}

impl Copied for Insert {
    fn copied(&self, alloc: Global) -> Result<Insert, NoMemory> {
        Ok(Insert {
            table: self.table.copied(alloc)?,
            columns: copy_of_optional(alloc, &self.columns)?,
            rows: self.rows.copied(alloc)?,
        })
    }
}

impl Copied for Assignment {
    fn copied(&self, alloc: Global) -> Result<Assignment, NoMemory> {
        Ok(Assignment {
            column: self.column.copied(alloc)?,
            slot: self.slot.copied(alloc)?,
        })
    }
}

impl Copied for Update {
    fn copied(&self, alloc: Global) -> Result<Update, NoMemory> {
        Ok(Update {
            target: self.target.copied(alloc)?,
            assignments: self.assignments.copied(alloc)?,
            condition: copy_of_optional(alloc, &self.condition)?,
        })
    }
}

impl Copied for Delete {
    fn copied(&self, alloc: Global) -> Result<Delete, NoMemory> {
        Ok(Delete {
            target: self.target.copied(alloc)?,
            condition: copy_of_optional(alloc, &self.condition)?,
        })
    }
}
