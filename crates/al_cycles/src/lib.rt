//! Cycles of waits (13.3.4): whether a session that has begun to wait waits for itself, by way of others.
#![tactic(auto)]

mod cycle;
mod rounds;
#[cfg(test)]
mod tests;
mod tx_waits;

pub use al_modes::Edge;
pub use cycle::{EdgeList, closes};
pub use tx_waits::TxWaits;
