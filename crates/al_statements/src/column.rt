use crate::optional::copy_of_optional;
use al_expr::Expr;
use al_values::{Copied, Kind, ListOf, Name, NameList, NoMemory};
use std::alloc::Global;

/// What a constraint demands (the manual, 5.4 and CREATE TABLE).
#[derive(Debug, Drop)]
pub enum Rule {
    /// CHECK: the expression isn't false for any row. With NO INHERIT it isn't handed down to children (true).
    Check(Expr, bool),
    /// UNIQUE: no two rows are equal in these columns.
    Unique(NameList),
    /// PRIMARY KEY: no two rows are equal in these columns, and none is null there.
    PrimaryKey(NameList),
    /// FOREIGN KEY: these columns, the table that they refer to, and its columns; without these they are its primary
    /// key's.
    ForeignKey(NameList, Name, Option<NameList>),
}

/// A constraint, with its name where one is written.
#[derive(Debug, Drop)]
pub struct Constraint {
    /// The name after CONSTRAINT.
    pub name: Option<Name>,
    /// What it demands.
    pub rule: Rule,
}

/// Constraints in written order.
pub type ConstraintList = ListOf<Constraint>;

/// The definition of a column (the manual, CREATE TABLE). Constraints that stand in it have its name as their only
/// column.
#[derive(Debug, Drop)]
pub struct ColumnDefinition {
    /// The column's name.
    pub name: Name,
    /// The kind of its values.
    pub kind: Kind,
    /// What stands after DEFAULT.
    pub default: Option<Expr>,
    /// Whether NOT NULL stands in it.
    pub not_null: bool,
    /// Its other constraints, in written order.
    pub constraints: ConstraintList,
}

impl Copied for Rule {
    fn copied(&self, alloc: Global) -> Result<Rule, NoMemory> {
        match self {
            Rule::Check(expr, no_inherit) => Ok(Rule::Check(expr.copied(alloc)?, *no_inherit)),
            Rule::Unique(columns) => Ok(Rule::Unique(columns.copied(alloc)?)),
            Rule::PrimaryKey(columns) => Ok(Rule::PrimaryKey(columns.copied(alloc)?)),
            Rule::ForeignKey(columns, table, keys) => Ok(Rule::ForeignKey(
                columns.copied(alloc)?,
                table.copied(alloc)?,
                copy_of_optional(alloc, keys)?,
            )),
        }
    }
}

impl Copied for Constraint {
    fn copied(&self, alloc: Global) -> Result<Constraint, NoMemory> {
        Ok(Constraint {
            name: copy_of_optional(alloc, &self.name)?,
            rule: self.rule.copied(alloc)?,
        })
    }
}

impl Copied for ColumnDefinition {
    fn copied(&self, alloc: Global) -> Result<ColumnDefinition, NoMemory> {
        Ok(ColumnDefinition {
            name: self.name.copied(alloc)?,
            kind: self.kind,
            default: copy_of_optional(alloc, &self.default)?,
            not_null: self.not_null,
            constraints: self.constraints.copied(alloc)?,
        })
    }
}
