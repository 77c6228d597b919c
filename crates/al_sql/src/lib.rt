//! Reads the statements of SQL and scripts of them over tokens (the manual, SQL Commands).
#![tactic(auto)]

mod aggregates;
mod changes;
mod creations;
mod drops;
mod following;
mod inserts;
mod locks;
mod outputs;
mod queries;
mod scripts;
mod slots;
mod sorting;
mod texts;
mod transactions;
mod words;

pub use scripts::script;
pub use texts::read_script;
