//! Spec files of PostgreSQL's isolation tester (src/test/isolation/README): their tokens, their grammar, and what they say.
#![tactic(auto)]

mod bytes;
mod kinds;
mod lent;
mod lex;
mod notes;
mod parse;
mod read;
mod spec;
#[cfg(test)]
mod tests;

pub use lex::is_plain;
pub use read::read_spec;
pub use spec::{Block, BlockList, Part, PermutationList, Spec, SpecFault, SpecLimit};
