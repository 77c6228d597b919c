//! The tables: what is committed of each, and an open transaction's own change of it.
#![tactic(auto)]

mod catalogue;
mod changes;
mod claimed;
mod entry;
mod laws;
mod lookup;
mod names;
mod places;
mod search;

pub use catalogue::Catalogue;
pub use claimed::Claimed;
pub use entry::{Kept, Own, TableEntry};
pub use laws::{aborted_again, committed_for_all};
// A crate can name a map in a contract only if the types of its fields are exported.
#[doc(hidden)]
pub use places::Places;
