use crate::{NumberedRowList, RewrittenList, Shape};
use al_modes::{Level, Mode};
use al_statements::{Cause, Reply};
use al_values::{Name, NameList, Row, RowList};

/// A row of a rewritten table.
#[derive(Debug, Drop)]
pub struct NumberedRow {
    /// The row's number.
    pub number: u32,
    /// Its values.
    pub values: Row,
}

/// A table that an ALTER TABLE rewrote.
#[derive(Debug, Drop)]
pub struct Rewritten {
    /// The table's number.
    pub table: u32,
    /// All its rows.
    pub rows: NumberedRowList,
}

/// What a statement waits for.
#[derive(Clone, Copy, Debug, PartialEq, Eq)]
pub enum Want {
    /// The lock of a table (13.3.1).
    Table {
        /// The table's number.
        table: u32,
        /// The mode.
        mode: Mode,
    },
    /// The end of another transaction, which has made a table of the wanted name.
    Ends {
        /// The transaction.
        xact: u32,
    },
}

/// An entry of a journal. Transactions are named by the place of their Start, tables by that of their Make, rows by
/// that of their Add.
#[derive(Debug, Drop)]
pub enum Entry {
    /// A block is given to a session.
    Give {
        /// The session.
        session: u32,
        /// The block's number.
        block: u32,
    },
    /// A transaction begins. Its number is this entry's place.
    Start {
        /// The session.
        session: u32,
        /// The isolation level.
        level: Level,
    },
    /// A statement waits.
    Wait {
        /// The transaction.
        xact: u32,
        /// What it waits for.
        want: Want,
    },
    /// A lock of a table is got. It is held to the transaction's end.
    Lock {
        /// The transaction.
        xact: u32,
        /// The table's number.
        table: u32,
        /// The mode.
        mode: Mode,
    },
    /// The place of a statement: what it reads is what stands before.
    Look {
        /// The transaction.
        xact: u32,
    },
    /// A table is made. Its number is this entry's place.
    Make {
        /// The transaction.
        xact: u32,
        /// The table's number.
        table: u32,
        /// The table's name.
        name: Name,
        /// Its columns.
        shape: Shape,
    },
    /// A row is added. Its number is this entry's place.
    Add {
        /// The transaction.
        xact: u32,
        /// The table's number.
        table: u32,
        /// The row's values.
        row: Row,
    },
    /// What a SELECT read.
    Read {
        /// The transaction.
        xact: u32,
        /// The names of the columns.
        names: NameList,
        /// The rows.
        rows: RowList,
    },
    /// A whole ALTER TABLE.
    Alter {
        /// The transaction.
        xact: u32,
        /// The table's number.
        table: u32,
        /// The statement's number, from 0, in the session's block in hand.
        statement: u32,
        /// The tables that were rewritten.
        rewritten: RewrittenList,
    },
    /// A statement ended with a reply.
    Done {
        /// The session.
        session: u32,
        /// The reply.
        reply: Reply,
    },
    /// A statement was refused.
    Refuse {
        /// The session.
        session: u32,
        /// The cause.
        cause: Cause,
    },
    /// A transaction is committed.
    Commit {
        /// The transaction.
        xact: u32,
    },
    /// A transaction is aborted.
    Abort {
        /// The transaction.
        xact: u32,
    },
    /// The step in hand is cancelled.
    Cancel {
        /// The session.
        session: u32,
    },
    /// A step ended.
    End {
        /// The session.
        session: u32,
    },
    /// A session is closed.
    Close {
        /// The session.
        session: u32,
    },
}
