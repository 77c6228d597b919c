//! The statements of SQL as trees, with the lock mode and the pass of each subcommand of ALTER TABLE, and what a statement is
//! answered: a reply, or why it is refused.
#![tactic(auto)]

mod alter;
mod cause;
mod column;
mod fault;
mod levels;
mod optional;
mod query;
mod reply;
mod rows;
mod script;
mod subcommands;
mod tables;

pub use alter::{Alter, Change, Rename, Sub};
pub use cause::{Cause, EdgeList, RowPlace, RunLimit};
pub use column::{ColumnDefinition, Constraint, ConstraintList, Rule};
pub use fault::SqlFault;
pub use levels::{level, level_of, pass_of};
pub use query::{
    Aggregate, AggregateList, Function, Output, OutputList, Query, SelectList, SortKey,
    SortKeyList, TableQuery,
};
pub use reply::{Reply, Tag};
pub use rows::{
    Assignment, AssignmentList, Delete, Insert, InsertRows, Series, Slot, Tuple, TupleList, Update,
};
pub use script::{Script, Setting, Statement};
pub use subcommands::SubList;
pub use tables::{CreateTable, DropTable, Element, ElementList, LockTable, Target, TargetList};
