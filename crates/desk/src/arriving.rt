//! How the desk classifies a request that arrives.

ghost use Rattle.wire_format.specs.Spelling.{IsCarried, is_ordered_request};
ghost use Rattle.desk.specs.Arriving.{IsArrival};

use crate::desk::Desk;
use terms::{ClientId, Timestamp};
use wire::body_bytes;

/// How a request stands to a desk that has no reply to it.
#[derive(Clone, Copy, Drop)]
pub enum Arrival {
    /// The client executed it or a later one, or a later one waits, or another one of the same timestamp waits.
    Past,
    /// It waits already.
    Waiting,
    /// It is newer than the client's last executed request and than its waiting one.
    New,
}

impl Desk {
    /// Classifies the client's request in this frame. Takes no memory.
    pub fn arrival_of(&self, client: ClientId, timestamp: Timestamp, frame: &[u8]) -> Arrival
        requires { IsCarried is_ordered_request frame.now }
        ensures { IsArrival self.now client timestamp frame.now result }
    {
        if timestamp.0 <= self.executed.seen(client).0 {
            return Arrival::Past;
        }
        let Some(waits) = self.waiting.request_of(client) else {
            return Arrival::New;
        };
        if waits.timestamp.0 < timestamp.0 {
            return Arrival::New;
        }
        if timestamp.0 < waits.timestamp.0 {
            return Arrival::Past;
        }
        if body_bytes(&waits.frame) == body_bytes(frame) {
            Arrival::Waiting
        } else {
            Arrival::Past
        }
    }
}
