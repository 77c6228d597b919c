//! The engine: sessions over one database in memory, and the journal that is kept of them. A block is given to a session,
//! and each turn of a session goes on with the step that it has in hand.
#![tactic(auto)]

mod causes;
mod engine;
mod machine;
mod sessions;
mod statements;
mod stored;
mod told;
mod turns;
mod weights;

pub use engine::Engine;
pub use told::{Busy, Outcome, Told};
