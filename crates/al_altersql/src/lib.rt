//! Reads ALTER TABLE over tokens (the manual, ALTER TABLE).
#![tactic(auto)]

mod action;
mod additions;
mod alterations;
mod numbers;
mod removals;
mod renames;
mod statement;
mod storage;
mod subcommands;
mod targets;
mod texts;

pub use numbers::sint;
pub use statement::{LEVELS, alter};
pub use targets::target;
pub use texts::read_alter;
