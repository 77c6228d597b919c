//! The rows that a SELECT finds, read version by version by one snapshot, in pieces.
#![tactic(auto)]

mod laws;
mod origin;
mod reading;
#[cfg(test)]
mod tests;

pub use laws::{
    changes_change_nothing, ends_change_nothing, pieces_make_the_whole, puts_change_nothing,
    reading_stays, rows_are_the_shapes, the_rest_is_unseen,
};
pub use origin::Origin;
pub use reading::{Read, Reading};
