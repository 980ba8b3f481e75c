//! The place at which a test may hold a node, or stop it.

/// Holds ordering threads, and stops nodes.
pub trait Gate {
    /// An ordering thread calls this before each of its events, with its order lock held. The node is the number of its
    /// replica, and its events are numbered from 0.
    fn at(&self, node: u16, event_no: u64);

    /// Whether the node stops in place of this event, as it does if memory runs out. The thread asks after `at`, with
    /// both locks of the node held. By default no node stops.
    fn stops(&self, _node: u16, _event_no: u64) -> bool {
        false
    }
}

/// The gate that holds no node and stops none.
#[derive(Clone, Copy, Drop)]
pub struct Open;

impl Gate for Open {
    fn at(&self, _node: u16, _event_no: u64) {}
}
