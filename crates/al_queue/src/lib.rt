//! The lock table: which session holds which lock of which table, and which request waits for which.
#![tactic(auto)]

mod grant;
mod in_way;
mod table;
#[cfg(test)]
mod tests;
mod walk;

pub use grant::{Asked, Grant};
pub use table::LockTable;
