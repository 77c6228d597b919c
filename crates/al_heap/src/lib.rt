//! The versions of a table's rows, with who made and who removed them.
#![tactic(auto)]

mod heap;
#[cfg(test)]
mod tests;
mod version;
mod walk;

pub use heap::Heap;
pub use version::{Stored, Version};
