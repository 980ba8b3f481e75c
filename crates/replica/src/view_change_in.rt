//! View changes of other replicas.

ghost use Rattle.std.specs.Prelude.{◌≡◌, [], Some, IfOk};
ghost use Rattle.wire_format.specs.Messages.{view_change};
ghost use Rattle.wire_format.specs.Views.{view_change_data};
ghost use Rattle.view_change.specs.Laws.{ChangesAreJudged};
ghost use Rattle.orderer.specs.Receiving.{JudgesAlike};
ghost use Rattle.replica.specs.Going.{IsOneParty};
ghost use Rattle.replica.specs.State.{heard};
ghost use Rattle.replica.specs.Entering.{TakesBytes};

use crate::both_parts::BothParts;
use crate::taking::DueWork;
use events::{Outputs, Stop};
use std::alloc::Global;
use terms::ReplicaId;
use view_change::{Change, sizes_decide};
use wire::ViewChange;

impl BothParts {
    /// Takes a view change that arrived in this frame. If those of f + 1 others are for views above the replica's
    /// target, it moves to the least of them. If it is the primary of that view, it begins the view as soon as it can.
    pub(crate) fn on_view_change(
        &mut self,
        alloc: Global,
        sender: ReplicaId,
        message: ViewChange,
        frame: &[u8],
        outputs: &mut Outputs,
    ) -> Result<DueWork, Stop>
        requires first { outputs.old.items ≡ [] }
        requires authentic { heard self.old.orderer frame.now
            ≡ Some (record { sender = sender.0; message = view_change (view_change_data message) }) }
        ensures ok { IfOk result (λ due_work. TakesBytes frame.now self.old
            due_work self.new outputs.new.items) }
        ensures party { IsOneParty self.old self.new }
    {
        self.orderer.judges();
        self.orderer.keeps();
        // Tells a proof that no key of the replica's own matters for a signature.
        sizes_decide();
        let change = Change {
            sender,
            change: message,
        };
        if !self.orderer.receive(alloc, change, frame)? {
            return Ok(DueWork::Nothing);
        }
        if let Some(view) = self.orderer.joined_view() {
            self.change_view(alloc, view, outputs)?;
        }
        self.begin_view(alloc, outputs)
    }

    // Tells a proof by which keys and sizes view changes are judged.
    pub(crate) fn judges_changes(&self)
        ensures alike { JudgesAlike self.now.orderer }
        ensures changes { ChangesAreJudged }
    {
        self.orderer.judges();
    }
}
