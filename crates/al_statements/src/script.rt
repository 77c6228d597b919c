use crate::{Alter, CreateTable, Delete, DropTable, Insert, LockTable, Query, Update};
use al_modes::Level;
use al_values::{Copied, ListOf, NoMemory};
use std::alloc::Global;

/// What SET names. It has no effect.
#[derive(Clone, Copy, Debug, PartialEq, Eq)]
pub enum Setting {
    /// deadlock_timeout.
    DeadlockTimeout,
    /// lock_timeout.
    LockTimeout,
    /// statement_timeout.
    StatementTimeout,
}

/// A statement.
#[derive(Debug, Drop)]
pub enum Statement {
    /// BEGIN, with the isolation level where one is written.
    Begin(Option<Level>),
    /// START TRANSACTION, with the isolation level where one is written.
    StartTransaction(Option<Level>),
    /// COMMIT or END.
    Commit,
    /// ROLLBACK or ABORT.
    Rollback,
    /// SET.
    Set(Setting),
    /// LOCK TABLE.
    LockTable(LockTable),
    /// CREATE TABLE.
    CreateTable(CreateTable),
    /// DROP TABLE.
    DropTable(DropTable),
    /// INSERT.
    Insert(Insert),
    /// UPDATE.
    Update(Update),
    /// DELETE.
    Delete(Delete),
    /// SELECT.
    Select(Query),
    /// ALTER TABLE.
    AlterTable(Alter),
}

/// Statements in written order.
pub type Script = ListOf<Statement>;

impl Copied for Statement {
    fn copied(&self, alloc: Global) -> Result<Statement, NoMemory> {
        match self {
            Statement::Begin(level) => Ok(Statement::Begin(*level)),
            Statement::StartTransaction(level) => Ok(Statement::StartTransaction(*level)),
            Statement::Commit => Ok(Statement::Commit),
            Statement::Rollback => Ok(Statement::Rollback),
            Statement::Set(setting) => Ok(Statement::Set(*setting)),
            Statement::LockTable(lock) => Ok(Statement::LockTable(lock.copied(alloc)?)),
            Statement::CreateTable(create) => { Ok(Statement::CreateTable(create.copied(alloc)?)) }
            Statement::DropTable(drop) => Ok(Statement::DropTable(drop.copied(alloc)?)),
            Statement::Insert(insert) => Ok(Statement::Insert(insert.copied(alloc)?)),
            Statement::Update(update) => Ok(Statement::Update(update.copied(alloc)?)),
            Statement::Delete(delete) => Ok(Statement::Delete(delete.copied(alloc)?)),
            Statement::Select(query) => Ok(Statement::Select(query.copied(alloc)?)),
            Statement::AlterTable(alter) => Ok(Statement::AlterTable(alter.copied(alloc)?)),
        }
    }
}
