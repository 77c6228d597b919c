use crate::optional::copy_of_optional;
use crate::{ColumnDefinition, Constraint, SubList, Target};
use al_expr::Expr;
use al_values::{Copied, Kind, Name, NoMemory};
use std::alloc::Global;

/// A subcommand of ALTER TABLE (the manual, ALTER TABLE).
#[derive(Debug, Drop)]
pub enum Sub {
    /// ADD COLUMN.
    AddColumn(ColumnDefinition),
    /// ADD of a constraint; with NOT VALID the rows that are there aren't tested (true).
    AddConstraint(Constraint, bool),
    /// DROP COLUMN.
    DropColumn(Name),
    /// DROP CONSTRAINT.
    DropConstraint(Name),
    /// ALTER COLUMN .. TYPE: the column, its new kind, and what stands after USING.
    AlterType(Name, Kind, Option<Expr>),
    /// ALTER COLUMN .. SET DEFAULT.
    SetDefault(Name, Expr),
    /// ALTER COLUMN .. DROP DEFAULT.
    DropDefault(Name),
    /// ALTER COLUMN .. SET NOT NULL.
    SetNotNull(Name),
    /// ALTER COLUMN .. DROP NOT NULL.
    DropNotNull(Name),
    /// ALTER COLUMN .. SET STATISTICS.
    SetStatistics(Name, i64),
    /// VALIDATE CONSTRAINT.
    Validate(Name),
    /// SET (fillfactor = ..), from 10 to 100.
    SetFillfactor(u8),
    /// INHERIT: the new parent.
    Inherit(Name),
    /// NO INHERIT: the parent that is one no more.
    NoInherit(Name),
}

/// RENAME, which stands alone in its ALTER TABLE.
#[derive(Debug, Drop)]
pub enum Rename {
    /// Of the table, to this name.
    Table(Name),
    /// Of a column, from one name to another.
    Column(Name, Name),
    /// Of a constraint, from one name to another.
    Constraint(Name, Name),
}

/// What an ALTER TABLE does.
#[derive(Debug, Drop)]
pub enum Change {
    /// One subcommand or more.
    Subs(SubList),
    /// RENAME.
    Rename(Rename),
}

/// ALTER TABLE.
#[derive(Debug, Drop)]
pub struct Alter {
    /// The table.
    pub target: Target,
    /// What it does.
    pub change: Change,
}

impl Copied for Sub {
    fn copied(&self, alloc: Global) -> Result<Sub, NoMemory> {
        match self {
            Sub::AddColumn(column) => Ok(Sub::AddColumn(column.copied(alloc)?)),
            Sub::AddConstraint(constraint, not_valid) => {
                Ok(Sub::AddConstraint(constraint.copied(alloc)?, *not_valid))
            }
            Sub::DropColumn(name) => Ok(Sub::DropColumn(name.copied(alloc)?)),
            Sub::DropConstraint(name) => Ok(Sub::DropConstraint(name.copied(alloc)?)),
            Sub::AlterType(column, kind, using) => Ok(Sub::AlterType(
                column.copied(alloc)?,
                *kind,
                copy_of_optional(alloc, using)?,
            )),
            Sub::SetDefault(column, expr) => {
                Ok(Sub::SetDefault(column.copied(alloc)?, expr.copied(alloc)?))
            }
            Sub::DropDefault(column) => Ok(Sub::DropDefault(column.copied(alloc)?)),
            Sub::SetNotNull(column) => Ok(Sub::SetNotNull(column.copied(alloc)?)),
            Sub::DropNotNull(column) => Ok(Sub::DropNotNull(column.copied(alloc)?)),
            Sub::SetStatistics(column, number) => {
                Ok(Sub::SetStatistics(column.copied(alloc)?, *number))
            }
            Sub::Validate(name) => Ok(Sub::Validate(name.copied(alloc)?)),
            Sub::SetFillfactor(percent) => Ok(Sub::SetFillfactor(*percent)),
            Sub::Inherit(parent) => Ok(Sub::Inherit(parent.copied(alloc)?)),
            Sub::NoInherit(parent) => Ok(Sub::NoInherit(parent.copied(alloc)?)),
        }
    }
}

impl Copied for Rename {
    fn copied(&self, alloc: Global) -> Result<Rename, NoMemory> {
        match self {
            Rename::Table(to) => Ok(Rename::Table(to.copied(alloc)?)),
            Rename::Column(from, to) => {
                Ok(Rename::Column(from.copied(alloc)?, to.copied(alloc)?))
            }
            Rename::Constraint(from, to) => {
                Ok(Rename::Constraint(from.copied(alloc)?, to.copied(alloc)?))
            }
        }
    }
}

impl Copied for Change {
    fn copied(&self, alloc: Global) -> Result<Change, NoMemory> {
        match self {
            Change::Subs(subs) => Ok(Change::Subs(subs.copied(alloc)?)),
            Change::Rename(rename) => Ok(Change::Rename(rename.copied(alloc)?)),
        }
    }
}

impl Copied for Alter {
    fn copied(&self, alloc: Global) -> Result<Alter, NoMemory> {
        Ok(Alter {
            target: self.target.copied(alloc)?,
            change: self.change.copied(alloc)?,
        })
    }
}
