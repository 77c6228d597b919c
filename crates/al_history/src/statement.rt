use crate::{Script, ScriptList};
use al_statements::SqlFault;
use al_values::{Copied, Name, NameList, NoMemory, Row, Value};
use std::alloc::Global;

/// A column of a table. Each is an integer.
#[derive(Debug, Drop)]
pub struct Column {
    /// Its name.
    pub name: Name,
    /// What a row gets that has no value for it; Null where no default was written.
    pub default: Value,
}

impl Copied for Column {
    fn copied(&self, alloc: Global) -> Result<Column, NoMemory> {
        Ok(Column {
            name: self.name.copied(alloc)?,
            default: self.default.copied(alloc)?,
        })
    }
}

/// A statement.
#[derive(Debug, Drop)]
pub enum Statement {
    /// BEGIN.
    Begin,
    /// COMMIT.
    Commit,
    /// ROLLBACK.
    Rollback,
    /// CREATE TABLE, with the names of the columns.
    CreateTable {
        /// The new table's name.
        table: Name,
        /// Its columns' names.
        columns: NameList,
    },
    /// INSERT of one row of values. Columns past their end get their defaults.
    Insert {
        /// The table's name.
        table: Name,
        /// The values, in the order of the columns.
        values: Row,
    },
    /// SELECT of all columns of all rows.
    Select {
        /// The table's name.
        table: Name,
    },
    /// ALTER TABLE with ADD COLUMN.
    AddColumn {
        /// The table's name.
        table: Name,
        /// The new column.
        column: Column,
    },
}

/// A block of a run: the session that it is given to, and its statements.
#[derive(Debug, Drop)]
pub struct ScriptBlock {
    /// The session's number.
    pub session: u32,
    /// The statements, in order, or why its text is no script.
    pub script: Result<Script, SqlFault>,
}

/// The blocks that may be given in a run, by number, and how many sessions there are, session 0 counted too.
#[derive(Debug, Drop)]
pub struct Scripts {
    /// How many sessions there are.
    pub sessions: u32,
    /// The blocks.
    pub blocks: ScriptList,
}

/// What the sessions of a run are held to: the blocks that may be given to them, and the most that the journal may weigh.
#[derive(Debug, Drop)]
pub struct Terms {
    /// The blocks.
    pub scripts: Scripts,
    /// The most that the entries of the journal may weigh together.
    pub weight: u32,
}
