//! What both parts of a replica wait for.

ghost use Rattle.replica.specs.Standing.{AreStanding};

use crate::both_parts::BothParts;
use patience::Standing;

impl BothParts {
    /// What the replica waits for between two events.
    pub(crate) fn standing(&self) -> Standing
        ensures { AreStanding self.now result }
    {
        Standing {
            view: (!self.orderer.is_active()).then_some(self.orderer.target()),
            part: self.desk.asked(),
            request: self.desk.oldest_waiting(),
        }
    }
}
