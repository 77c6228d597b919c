/// A reply that is a command tag (the manual, SQL Commands, each under Outputs).
#[derive(Clone, Copy, Debug, PartialEq, Eq)]
pub enum Tag {
    /// `BEGIN`
    Begin,
    /// `START TRANSACTION`
    StartTransaction,
    /// `COMMIT`
    Commit,
    /// `ROLLBACK`
    Rollback,
    /// `SET`
    Set,
    /// `LOCK TABLE`
    LockTable,
    /// `CREATE TABLE`
    CreateTable,
    /// `DROP TABLE`
    DropTable,
    /// `ALTER TABLE`
    AlterTable,
    /// `INSERT 0` and the count
    Insert,
    /// `UPDATE` and the count
    Update,
    /// `DELETE` and the count
    Delete,
}

/// What a statement answers.
#[derive(Clone, Copy, Debug, PartialEq, Eq)]
pub enum Reply {
    /// A command tag. The count is 0 where the tag prints none.
    Tag {
        /// The tag.
        tag: Tag,
        /// The rows that were used.
        count: u32,
    },
    /// The rows of a SELECT.
    Rows {
        /// The place of its Read in the journal.
        entry: u32,
    },
}
