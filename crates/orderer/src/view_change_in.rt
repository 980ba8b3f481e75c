//! View changes of other replicas.

ghost use Rattle.std.specs.Prelude.{◌≡◌, Some, IfNone, IfOk, IfSome};
ghost use Rattle.protocol.specs.Replica.Selection.{signed_change};
ghost use Rattle.view_change.specs.Laws.{ChangesAreJudged};
ghost use Rattle.view_change.specs.ReceivedView.{judging_configuration, held_as};
ghost use Rattle.view_change.specs.Sets.{change_pair};
ghost use Rattle.orderer.specs.Going.{KeepsParty};
ghost use Rattle.orderer.specs.ViewChangeOut.{IsJoinedBy, IsJoinedByNone, IsNextView};
ghost use Rattle.orderer.specs.Receiving.{JudgesAlike, ReceivesViewChange};

use crate::orderer::Orderer;
use events::Stop;
use std::alloc::Global;
use terms::View;
use view_change::{Change, ChangeFault, refusals_decide, sizes_decide};

impl Orderer {
    /// Tells a proof by which keys and sizes view changes are judged.
    pub fn judges(&self)
        ensures alike { JudgesAlike self.now }
        ensures changes { ChangesAreJudged }
    {
        self.keeps();
        sizes_decide();
        refusals_decide();
    }

    /// Takes a view change that was received or signed in this frame, if it has no fault. Returns whether.
    pub fn receive(&mut self, alloc: Global, change: Change, frame: &[u8]) -> Result<bool, Stop>
        requires { signed_change (judging_configuration self.old.received) frame.now ≡ Some (change_pair change) }
        ensures ok { IfOk result (ReceivesViewChange (held_as change frame.now) self.old self.new) }
        ensures party { KeepsParty self.old self.new }
    {
        let view = self.log.view();
        match self.received.add_signed(alloc, view, change, frame) {
            Ok(()) => Ok(true),
            Err(ChangeFault::NoMemory) => Err(Stop::NoMemory),
            Err(_) => Ok(false),
        }
    }

    /// The view to which f + 1 others move the replica, if there are that many.
    pub fn joined_view(&self) -> Option<View>
        ensures above { IfSome result (λ view. IsNextView self.now view.0) }
        ensures joined { IfSome result (λ view. IsJoinedBy self.now view.0) }
        ensures none { IfNone result (IsJoinedByNone self.now) }
    {
        self.received.note_held();
        self.received.joined_view(self.log.me(), self.target_view())
    }
}
