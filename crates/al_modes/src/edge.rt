/// An edge of a cycle of waits (13.3.4): a session, and the next one, which it waits for.
#[derive(Clone, Copy, Debug, PartialEq, Eq)]
pub struct Edge {
    /// The session that waits.
    pub session: u32,
    /// The session that it waits for.
    pub by: u32,
}
