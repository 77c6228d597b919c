//! Where bytes come from and where they go: sources and sinks that may fail and say so by a count of faults, the gate
//! that sessions pass, their adapters over std, and sources and sinks in memory.
#![tactic(auto)]

mod adapters;
mod failing;
mod gate;
mod memory_sink;
mod memory_source;
mod reading;
mod room;
mod traits;
mod writing;

pub use adapters::{StdSink, StdSource};
pub use gate::{Gate, OpenGate};
pub use memory_sink::MemorySink;
pub use memory_source::MemorySource;
pub use reading::{NotRead, read_all};
pub use room::Room8;
pub use traits::{Failed, Sink, Source};
pub use writing::write_all;

#[cfg(test)]
mod tests;
