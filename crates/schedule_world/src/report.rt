//! The report of a run.

use crate::stage::Parties;
use events::Entry;
use points::Point;
use std::alloc::Global;
use terms::{ClientId, Party, Timestamp};
use tuple_codec::Answer;

/// An answer that a client accepted.
#[derive(Drop)]
pub struct Acceptance {
    /// Of its entry in the trace.
    pub position: usize,
    pub client: ClientId,
    pub timestamp: Timestamp,
    pub answer: Answer<Global>,
}

/// The report of a run.
#[derive(Drop)]
pub struct Report {
    /// The entries of all correct parties, oldest first.
    pub trace: Vec<Entry>,
    /// In order of position.
    pub accepted: Vec<Acceptance>,
    /// The operations that acted, in the order of one sequential space.
    pub points: Vec<Point>,
    /// The correct parties that ran out of memory and stopped, ascending by number.
    pub stopped: Vec<Party>,
    /// All parties, as the run left them.
    pub parties: Parties,
}
