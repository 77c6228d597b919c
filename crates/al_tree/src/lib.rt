//! Which table inherits from which (the manual, 5.10): the children of a table, and its family.
#![tactic(auto)]

mod fault;
mod laws;
mod line;
mod one_way;
mod search;
#[cfg(test)]
mod tests;
mod tree;

pub use fault::LinkFault;
pub use laws::one_family;
pub use line::Line;
pub use tree::Tree;
