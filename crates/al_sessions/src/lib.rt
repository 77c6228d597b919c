//! The step that each session has in hand, its statements in order, and its transaction block.
#![tactic(auto)]

mod block;
mod sessions;
mod step;
#[cfg(test)]
mod tests;

pub use block::{BlockState, Control, ControlList};
pub use sessions::Sessions;
pub use step::{Ending, How, InStep, Next, Progress};
