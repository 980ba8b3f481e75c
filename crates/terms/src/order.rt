//! What orders requests (Castro and Liskov, Practical Byzantine fault tolerance and proactive recovery, TOCS 2002, on
//! the client and on normal-case operation).

/// The number of a view. The replica of that number modulo the number of replicas is its primary.
#[derive(Clone, Copy, PartialEq, Eq, Drop)]
pub struct View(pub u64);

/// The sequence number that ordering gives to a batch.
#[derive(Clone, Copy, PartialEq, Eq, Drop)]
pub struct Number(pub u64);

/// A client's number for one of its calls, counted from 1.
#[derive(Clone, Copy, PartialEq, Eq, Drop)]
pub struct Timestamp(pub u64);

/// How a request is to be answered: in its place in the order of all requests, or at once from the executed state.
#[derive(Clone, Copy, PartialEq, Eq, Drop)]
pub enum Mode {
    Ordered,
    ReadOnly,
}
