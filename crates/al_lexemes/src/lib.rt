//! Tokens of SQL classed as the grammar tells them apart, and what a text that isn't SQL is told.
#![tactic(auto)]

mod answers;
mod classes;
#[cfg(test)]
mod names;
#[cfg(test)]
mod tests;
mod texts;
mod words;

pub use answers::{
    end_fault, ended, fault_at, front, goes_on, tokens_before, tokens_from, trial, whole,
};
pub use classes::{is_outside, lexemes, stand_in};
