//! Tests over what the crates below show: the engine, the top calls and the report.
#![tactic(auto)]

#[cfg(test)]
mod answering;
#[cfg(test)]
mod engine;
#[cfg(test)]
mod limits;
#[cfg(test)]
mod printing;
#[cfg(test)]
mod several;
#[cfg(test)]
mod whole;
