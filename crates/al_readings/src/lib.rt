//! Tests of the reader of SQL, and of expressions as their texts: here, since a crate with tests is proved twice.
#![tactic(auto)]

#[cfg(test)]
mod alterations;
#[cfg(test)]
mod altering;
#[cfg(test)]
mod deep;
#[cfg(test)]
mod evaluated;
#[cfg(test)]
mod expressions;
#[cfg(test)]
mod faults;
#[cfg(test)]
mod kinds;
#[cfg(test)]
mod levels;
#[cfg(test)]
mod reading;
#[cfg(test)]
mod refused;
#[cfg(test)]
mod roots;
#[cfg(test)]
mod statements;
#[cfg(test)]
mod tables;
#[cfg(test)]
mod trees;
#[cfg(test)]
mod words;
