//! What a replica waits for.

use state_transfer::Place;
use terms::{Number, Timestamp, View};

/// What a replica waits for. The execution of a request is told by its client's number and its timestamp.
#[derive(Clone, Copy, PartialEq, Eq, Drop)]
pub enum Wait {
    /// The replica is inactive: it sent a view change for this view, which has not begun.
    View(View),
    /// The open transfer awaits this part of the state of this number.
    Part(Number, Place),
    /// This request, which has waited longest.
    Request(u16, Timestamp),
}

/// How a replica stands between two events.
#[derive(Clone, Copy, Drop)]
pub struct Standing {
    /// The view that it sent its last view change for, if it is inactive: no view since the one that it left has begun.
    pub view: Option<View>,
    /// The part that its open transfer awaits: the number of the state, and the place.
    pub part: Option<(Number, Place)>,
    /// The request that has waited longest: its client's number, and its timestamp.
    pub request: Option<(u16, Timestamp)>,
}

impl Standing {
    ghost use Rattle.std.specs.Prelude.{◌≡◌, ◌↔◌, IsTrue, Some};
    ghost use Rattle.patience.specs.Standings.{wait_of, may_sign};

    /// What it waits for: a view before a part, and a part before a request.
    pub fn wait(&self) -> Option<Wait>
        ensures { result ≡ wait_of self.now }
    {
        if let Some(view) = self.view {
            return Some(Wait::View(view));
        }
        if let Some((number, place)) = self.part {
            return Some(Wait::Part(number, place));
        }
        let (client, timestamp) = self.request?;
        Some(Wait::Request(client, timestamp))
    }

    /// Whether it waits for this.
    pub fn waits_for(&self, wait: Wait) -> bool
        ensures { IsTrue result ↔ (wait_of self.now ≡ Some wait) }
    {
        self.wait() == Some(wait)
    }

    /// Whether a timeout may make it sign a view change: it is inactive, or a request waits.
    pub fn may_sign(&self) -> bool
        ensures { result ≡ may_sign self.now }
    {
        self.view.is_some() || self.request.is_some()
    }
}
