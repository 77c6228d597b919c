//! The tokens of a text of SQL.
#![tactic(auto)]

mod bytes;
mod kinds;
mod read;
#[cfg(test)]
mod tests;

pub use kinds::{Ending, Front, Lex, Sign, Token, TokenKind, TokenList};
pub use read::{front_tokens, tokens};
