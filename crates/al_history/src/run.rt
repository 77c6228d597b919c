use crate::History;

/// How the setup part of a run ended.
#[derive(Clone, Copy, Debug, PartialEq, Eq)]
pub enum Setup {
    /// No statement of it was refused.
    Done,
    /// A statement of this block was refused.
    Failed {
        /// The block's number.
        block: u32,
    },
}

/// One run of a permutation, with its journal.
#[derive(Debug, Drop)]
pub struct Run {
    /// The permutation's number in the file, from 1.
    pub permutation: u32,
    /// How the setup part ended.
    pub setup: Setup,
    /// The journal.
    pub history: History,
}
