use al_modes::Mode;

/// A lock that a session holds, or a request for one.
#[derive(Clone, Copy, Debug, PartialEq, Eq)]
pub struct Grant {
    /// The session.
    pub session: u32,
    /// The table.
    pub table: u32,
    /// The mode.
    pub mode: Mode,
}

/// What a request for a lock is answered.
#[derive(Clone, Copy, Debug, PartialEq, Eq)]
pub enum Asked {
    /// The lock is held from now on.
    Granted,
    /// The request waits.
    Queued {
        /// How many requests for the same table are ahead of it.
        place: u32,
    },
}
