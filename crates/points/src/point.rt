//! Operations at their positions.

use std::alloc::Global;
use terms::{ClientId, Mode, Number, Timestamp};
use tuple_codec::{Answer, Op};

/// An operation of a client, and its position.
#[derive(Drop)]
pub struct Point {
    pub client: ClientId,
    pub timestamp: Timestamp,
    pub op: Op<Global>,
    pub answer: Answer<Global>,
    /// How many entries of the trace come before.
    pub position: usize,
}

/// A point with its number and mode, by which points are ordered.
#[derive(Drop)]
pub(crate) struct Placed {
    pub(crate) point: Point,
    pub(crate) number: Number,
    pub(crate) mode: Mode,
}
