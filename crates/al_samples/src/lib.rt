//! Tests of the crates that keep tables, and of trees of statements: here, since a crate with tests is proved twice.
#![tactic(auto)]

#[cfg(test)]
mod names;
#[cfg(test)]
mod phrases;
#[cfg(test)]
mod places;
#[cfg(test)]
mod shapes;
#[cfg(test)]
mod statements;
