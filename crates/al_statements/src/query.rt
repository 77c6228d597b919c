use crate::Target;
use crate::optional::copy_of_optional;
use al_expr::Expr;
use al_modes::RowMode;
use al_values::{Copied, ListOf, Name, NoMemory};
use std::alloc::Global;

/// An expression of a select list.
#[derive(Debug, Drop)]
pub struct Output {
    /// The expression.
    pub expr: Expr,
    /// The name after AS.
    pub name: Option<Name>,
}

/// Expressions of a select list, one or more.
pub type OutputList = ListOf<Output>;

/// What an aggregate computes (the manual, 9.21).
#[derive(Debug, Drop)]
pub enum Function {
    /// `count(*)`: how many rows there are.
    Count,
    /// The least value.
    Min(Expr),
    /// The greatest value.
    Max(Expr),
}

/// An aggregate of a select list.
#[derive(Debug, Drop)]
pub struct Aggregate {
    /// The byte at which its word begins.
    pub place: u32,
    /// What it computes.
    pub function: Function,
    /// The name after AS.
    pub name: Option<Name>,
}

/// Aggregates of a select list, one or more.
pub type AggregateList = ListOf<Aggregate>;

/// What a query with FROM gives.
#[derive(Debug, Drop)]
pub enum SelectList {
    /// `*`: all columns of each row.
    All,
    /// These for each row.
    Outputs(OutputList),
    /// These over all rows, as one row.
    Aggregates(AggregateList),
}

/// A column of ORDER BY.
#[derive(Debug, Drop)]
pub struct SortKey {
    /// The column.
    pub column: Name,
    /// Whether DESC is written.
    pub descending: bool,
}

/// Columns of ORDER BY in written order.
pub type SortKeyList = ListOf<SortKey>;

/// A SELECT with FROM.
#[derive(Debug, Drop)]
pub struct TableQuery {
    /// What it gives.
    pub list: SelectList,
    /// The table.
    pub target: Target,
    /// What stands after WHERE.
    pub condition: Option<Expr>,
    /// What stands after ORDER BY; none where it isn't written.
    pub order: SortKeyList,
    /// How FOR locks the rows.
    pub lock: Option<RowMode>,
}

/// A SELECT.
#[derive(Debug, Drop)]
pub enum Query {
    /// Without FROM: one row.
    Row(OutputList),
    /// With FROM.
    Table(TableQuery),
}

impl Copied for Output {
    fn copied(&self, alloc: Global) -> Result<Output, NoMemory> {
        Ok(Output {
            expr: self.expr.copied(alloc)?,
            name: copy_of_optional(alloc, &self.name)?,
        })
    }
}

impl Copied for Function {
    fn copied(&self, alloc: Global) -> Result<Function, NoMemory> {
        match self {
            Function::Count => Ok(Function::Count),
            Function::Min(expr) => Ok(Function::Min(expr.copied(alloc)?)),
            Function::Max(expr) => Ok(Function::Max(expr.copied(alloc)?)),
        }
    }
}

impl Copied for Aggregate {
    fn copied(&self, alloc: Global) -> Result<Aggregate, NoMemory> {
        Ok(Aggregate {
            place: self.place,
            function: self.function.copied(alloc)?,
            name: copy_of_optional(alloc, &self.name)?,
        })
    }
}

impl Copied for SelectList {
    fn copied(&self, alloc: Global) -> Result<SelectList, NoMemory> {
        match self {
            SelectList::All => Ok(SelectList::All),
            SelectList::Outputs(outputs) => Ok(SelectList::Outputs(outputs.copied(alloc)?)),
            SelectList::Aggregates(aggregates) => {
                Ok(SelectList::Aggregates(aggregates.copied(alloc)?))
            }
        }
    }
}

impl Copied for SortKey {
    fn copied(&self, alloc: Global) -> Result<SortKey, NoMemory> {
        Ok(SortKey {
            column: self.column.copied(alloc)?,
            descending: self.descending,
        })
    }
}

impl Copied for TableQuery {
    fn copied(&self, alloc: Global) -> Result<TableQuery, NoMemory> {
        Ok(TableQuery {
            list: self.list.copied(alloc)?,
            target: self.target.copied(alloc)?,
            condition: copy_of_optional(alloc, &self.condition)?,
            order: self.order.copied(alloc)?,
            lock: self.lock,
        })
    }
}

impl Copied for Query {
    fn copied(&self, alloc: Global) -> Result<Query, NoMemory> {
        match self {
            Query::Row(outputs) => Ok(Query::Row(outputs.copied(alloc)?)),
            Query::Table(query) => Ok(Query::Table(query.copied(alloc)?)),
        }
    }
}
