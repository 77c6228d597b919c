/// What a session passes before it is given a step. It tells nothing and can't refuse.
pub trait Gate {
    /// Lets a session pass, of which the block with this number comes next.
    fn pass(&self, session: u32, block: u32);
}

/// The gate that is always open.
#[derive(Clone, Copy, Debug)]
pub struct OpenGate;

impl Gate for OpenGate {
    fn pass(&self, _session: u32, _block: u32) {}
}
