//! Transactions: their fates, the snapshots that they read by, and the marks that they have on rows.
#![tactic(auto)]

mod in_way;
mod lists;
mod marks;
mod row_marks;
mod snapshot;
#[cfg(test)]
mod tests;
mod xact;
mod xacts;

pub use snapshot::Snapshot;
pub use xact::{Fate, Mark, Marked, Started, Xact};
pub use xacts::Xacts;
