ghost use Rattle.std.specs.Prelude.{◌≡◌, IfOk};

use al_expr::EvalFault;
use al_modes::Edge;
use al_values::{Copied, ListOf, Name, NoMemory};
use std::alloc::Global;

/// What a run has a limit of.
#[derive(Clone, Copy, Debug, PartialEq, Eq)]
pub enum RunLimit {
    /// The tables that are made in it, those of aborted transactions counted.
    Tables,
    /// The columns of a table.
    Columns,
    /// The constraints of a table.
    Constraints,
    /// The parents of a table.
    Parents,
    /// The bytes of a text value.
    Text,
    /// The weight of its journal.
    Journal,
}

/// The row that a cause speaks of.
#[derive(Clone, Copy, Debug, PartialEq, Eq)]
pub enum RowPlace {
    /// A row that is there, by its number.
    Old {
        /// The row's number.
        number: u32,
    },
    /// A row of an INSERT, from 0.
    New {
        /// The row's place among those of the INSERT.
        place: u32,
    },
    /// No row: a default, or a SELECT without FROM.
    Nowhere,
}

/// The edges of a cycle of waits, in its order.
pub type EdgeList = ListOf<Edge>;

/// Why a statement was refused (the manual, Appendix A). A `name` is that of the thing that is missing, doubled or in the way.
#[derive(Debug, Drop)]
pub enum Cause {
    /// 42601: the block's text is no script, for a token can't stand there.
    Syntax {
        /// The byte of the block's text.
        at: u32,
    },
    /// 0A000: the block's text has a form that is left out.
    NotInProfile {
        /// The byte of the block's text.
        at: u32,
    },
    /// 42601: an INSERT's tuple has another number of values than it needs.
    Count {
        /// How many values are needed.
        want: u32,
        /// How many values are given.
        got: u32,
    },
    /// 0A000: the column can't be altered here.
    NotHere {
        /// The column's name.
        name: Name,
    },
    /// 42P01: no table has the name.
    NoTable {
        /// The name.
        name: Name,
    },
    /// 42703: no column has the name.
    NoColumn {
        /// The name.
        name: Name,
    },
    /// 42704: no constraint has the name.
    NoConstraint {
        /// The name.
        name: Name,
    },
    /// 42P07: a table has the name already.
    TwiceTable {
        /// The name.
        name: Name,
    },
    /// 42701: a column has the name already.
    TwiceColumn {
        /// The name.
        name: Name,
    },
    /// 42710: a constraint has the name already.
    TwiceConstraint {
        /// The name.
        name: Name,
    },
    /// 42P07: the table can't be a parent here.
    BadParent {
        /// The parent's name.
        name: Name,
    },
    /// 42804: a node of an expression has another kind than it needs.
    WrongKind {
        /// The byte of the block's text at which the node begins.
        place: u32,
    },
    /// 42804: a column has another kind than it needs.
    OtherKind {
        /// The name of the column, or else of the constraint.
        name: Name,
    },
    /// 42P16: the definition isn't allowed.
    NotAllowed {
        /// The name of what is defined.
        name: Name,
    },
    /// 42830: the foreign key refers to no key.
    NoKey {
        /// The foreign key's name.
        name: Name,
    },
    /// 2BP01: it is still used.
    Depends {
        /// The name of what is used.
        name: Name,
    },
    /// 23502: a row has a null in a column that takes none.
    Null {
        /// The row.
        row: RowPlace,
        /// The table's name.
        table: Name,
        /// The column's name.
        column: Name,
    },
    /// 23514: a row breaks a CHECK.
    Check {
        /// The row.
        row: RowPlace,
        /// The table's name.
        table: Name,
        /// The constraint's name.
        name: Name,
    },
    /// 23505: two rows have one key.
    Twice {
        /// The row.
        row: RowPlace,
        /// The table's name.
        table: Name,
        /// The constraint's name.
        name: Name,
    },
    /// 23503: a row breaks a foreign key.
    Foreign {
        /// The row.
        row: RowPlace,
        /// The name of the table that has the foreign key.
        table: Name,
        /// The constraint's name.
        name: Name,
    },
    /// 22xxx: an expression has no value on a row.
    Fault {
        /// The row.
        row: RowPlace,
        /// Why.
        fault: EvalFault,
    },
    /// 40001: a row changed since the snapshot.
    Changed {
        /// The row.
        row: RowPlace,
        /// The number of its version in the snapshot.
        seen: u32,
        /// The number of its newest version.
        newest: u32,
    },
    /// 40P01: the request would close a cycle of waits.
    Cycle {
        /// The cycle.
        edges: EdgeList,
    },
    /// 55P03: the lock can't be had at once.
    NoWait {
        /// The table's name.
        table: Name,
        /// The session that makes it wait.
        by: u32,
    },
    /// 25P01: LOCK TABLE outside a transaction block.
    NoBlock,
    /// 25P02: the transaction block has failed.
    BlockFailed {
        /// The place of the Refuse that failed it.
        refuse: u32,
    },
    /// 54000: a limit of the run would be passed.
    Limit {
        /// What there would be too much of.
        what: RunLimit,
        /// How much there would be.
        count: u64,
    },
    /// 57014: the step was cancelled.
    Cancelled {
        /// The place of its Cancel in the journal.
        entry: u32,
    },
}

fn copied_edges(alloc: Global, edges: &[Edge]) -> Result<EdgeList, NoMemory>
    ensures { IfOk result (λ copy. copy ≡ edges.now) }
{
    Ok(ListOf::from_vec(Vec::from_slice(alloc, edges)?))
}

// What a cause of a row says of it: the row, its table's name, and the column's or constraint's name.
fn copied_names(alloc: Global, table: &Name, name: &Name) -> Result<(Name, Name), NoMemory>
    ensures { IfOk result (λ copies. copies ≡ (table.now, name.now)) }
{
    Ok((table.copied(alloc)?, name.copied(alloc)?))
}

impl Copied for Cause {
    fn copied(&self, alloc: Global) -> Result<Cause, NoMemory> {
        match self {
            Cause::Syntax { at } => Ok(Cause::Syntax { at: *at }),
            Cause::NotInProfile { at } => Ok(Cause::NotInProfile { at: *at }),
            Cause::Count { want, got } => Ok(Cause::Count {
                want: *want,
                got: *got,
            }),
            Cause::NotHere { name } => Ok(Cause::NotHere {
                name: name.copied(alloc)?,
            }),
            Cause::NoTable { name } => Ok(Cause::NoTable {
                name: name.copied(alloc)?,
            }),
            Cause::NoColumn { name } => Ok(Cause::NoColumn {
                name: name.copied(alloc)?,
            }),
            Cause::NoConstraint { name } => Ok(Cause::NoConstraint {
                name: name.copied(alloc)?,
            }),
            Cause::TwiceTable { name } => Ok(Cause::TwiceTable {
                name: name.copied(alloc)?,
            }),
            Cause::TwiceColumn { name } => Ok(Cause::TwiceColumn {
                name: name.copied(alloc)?,
            }),
            Cause::TwiceConstraint { name } => Ok(Cause::TwiceConstraint {
                name: name.copied(alloc)?,
            }),
            Cause::BadParent { name } => Ok(Cause::BadParent {
                name: name.copied(alloc)?,
            }),
            Cause::WrongKind { place } => Ok(Cause::WrongKind { place: *place }),
            Cause::OtherKind { name } => Ok(Cause::OtherKind {
                name: name.copied(alloc)?,
            }),
            Cause::NotAllowed { name } => Ok(Cause::NotAllowed {
                name: name.copied(alloc)?,
            }),
            Cause::NoKey { name } => Ok(Cause::NoKey {
                name: name.copied(alloc)?,
            }),
            Cause::Depends { name } => Ok(Cause::Depends {
                name: name.copied(alloc)?,
            }),
            Cause::Null { row, table, column } => {
                let (table, column) = copied_names(alloc, table, column)?;
                Ok(Cause::Null {
                    row: *row,
                    table,
                    column,
                })
            }
            Cause::Check { row, table, name } => {
                let (table, name) = copied_names(alloc, table, name)?;
                Ok(Cause::Check {
                    row: *row,
                    table,
                    name,
                })
            }
            Cause::Twice { row, table, name } => {
                let (table, name) = copied_names(alloc, table, name)?;
                Ok(Cause::Twice {
                    row: *row,
                    table,
                    name,
                })
            }
            Cause::Foreign { row, table, name } => {
                let (table, name) = copied_names(alloc, table, name)?;
                Ok(Cause::Foreign {
                    row: *row,
                    table,
                    name,
                })
            }
            Cause::Fault { row, fault } => Ok(Cause::Fault {
                row: *row,
                fault: *fault,
            }),
            Cause::Changed { row, seen, newest } => Ok(Cause::Changed {
                row: *row,
                seen: *seen,
                newest: *newest,
            }),
            Cause::Cycle { edges } => Ok(Cause::Cycle {
                edges: copied_edges(alloc, edges.as_slice())?,
            }),
            Cause::NoWait { table, by } => Ok(Cause::NoWait {
                table: table.copied(alloc)?,
                by: *by,
            }),
            Cause::NoBlock => Ok(Cause::NoBlock),
            Cause::BlockFailed { refuse } => Ok(Cause::BlockFailed { refuse: *refuse }),
            Cause::Limit { what, count } => Ok(Cause::Limit {
                what: *what,
                count: *count,
            }),
            Cause::Cancelled { entry } => Ok(Cause::Cancelled { entry: *entry }),
        }
    }
}
