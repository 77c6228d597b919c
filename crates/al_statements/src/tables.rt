use crate::{ColumnDefinition, Constraint};
use al_modes::Mode;
use al_values::{Copied, ListOf, Name, NameList, NoMemory};
use std::alloc::Global;

/// A table and, without ONLY, its descendants (the manual, 5.10).
#[derive(Debug, Drop)]
pub struct Target {
    /// Whether ONLY is written.
    pub only: bool,
    /// The table's name.
    pub name: Name,
}

/// Targets in written order.
pub type TargetList = ListOf<Target>;

/// LOCK TABLE.
#[derive(Debug, Drop)]
pub struct LockTable {
    /// The tables to lock, one or more.
    pub targets: TargetList,
    /// The mode, ACCESS EXCLUSIVE where none is written.
    pub mode: Mode,
    /// Whether NOWAIT is written.
    pub nowait: bool,
}

/// What stands in the parentheses of CREATE TABLE.
#[derive(Debug, Drop)]
pub enum Element {
    /// A column.
    Column(ColumnDefinition),
    /// A constraint of the table.
    Constraint(Constraint),
}

/// Columns and constraints in written order.
pub type ElementList = ListOf<Element>;

/// CREATE TABLE.
#[derive(Debug, Drop)]
pub struct CreateTable {
    /// The table's name.
    pub name: Name,
    /// Its columns and constraints.
    pub elements: ElementList,
    /// The tables after INHERITS; none where it isn't written.
    pub parents: NameList,
}

/// DROP TABLE.
#[derive(Debug, Drop)]
pub struct DropTable {
    /// Whether IF EXISTS is written.
    pub if_exists: bool,
    /// The tables, one or more.
    pub names: NameList,
}

impl Copied for Target {
    fn copied(&self, alloc: Global) -> Result<Target, NoMemory> {
        Ok(Target {
            only: self.only,
            name: self.name.copied(alloc)?,
        })
    }
}

impl Copied for LockTable {
    fn copied(&self, alloc: Global) -> Result<LockTable, NoMemory> {
        Ok(LockTable {
            targets: self.targets.copied(alloc)?,
            mode: self.mode,
            nowait: self.nowait,
        })
    }
}

impl Copied for Element {
    fn copied(&self, alloc: Global) -> Result<Element, NoMemory> {
        match self {
            Element::Column(column) => Ok(Element::Column(column.copied(alloc)?)),
            Element::Constraint(constraint) => {
                Ok(Element::Constraint(constraint.copied(alloc)?))
            }
        }
    }
}

impl Copied for CreateTable {
    fn copied(&self, alloc: Global) -> Result<CreateTable, NoMemory> {
        Ok(CreateTable {
            name: self.name.copied(alloc)?,
            elements: self.elements.copied(alloc)?,
            parents: self.parents.copied(alloc)?,
        })
    }
}

impl Copied for DropTable {
    fn copied(&self, alloc: Global) -> Result<DropTable, NoMemory> {
        Ok(DropTable {
            if_exists: self.if_exists,
            names: self.names.copied(alloc)?,
        })
    }
}
