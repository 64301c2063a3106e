/// Where a thread may be held up, so that a test can choose the order of events.
pub trait Gate {
    /// Called by a worker before it runs a job of a flow (it judges a transaction, say), outside any lock.
    fn before_verify(&self, node: u8, flow: u32);

    /// Called by a worker after each call that committed a record of the node, outside any lock.
    fn after_commit(&self, node: u8);
}

/// The gate that holds up nobody.
#[derive(Clone, Copy, Debug, PartialEq, Eq)]
pub struct NoGate;

impl Gate for NoGate {
    fn before_verify(&self, _node: u8, _flow: u32) {}

    fn after_commit(&self, _node: u8) {}
}
