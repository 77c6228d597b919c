//! The lock modes of tables and rows and which of them conflict, the isolation levels of transactions, and the edges of cycles of
//! waits.
#![tactic(auto)]

mod edge;
mod level;
mod mode;
mod row_mode;
#[cfg(test)]
mod tests;

pub use edge::Edge;
pub use level::Level;
pub use mode::{Mode, conflicts};
pub use row_mode::{RowMode, row_conflicts};
