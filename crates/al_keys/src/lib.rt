//! The keys of a table's rows: which versions of rows have a key, who is in the way of it, and which row gives it in a snapshot.
#![tactic(auto)]

mod entry;
mod index;
mod order;
mod search;
#[cfg(test)]
mod tests;
mod verdict;
mod version;

pub use entry::{Entry, VersionList};
pub use index::KeyIndex;
pub use version::{KeyVersion, Sought};
