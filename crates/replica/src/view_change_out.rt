//! The replica's own view changes.

ghost use Rattle.std.specs.Prelude.{◌≡◌, [], IfNone, IfOk, IfSome};
ghost use Rattle.replica.specs.Going.{IsOneParty};
ghost use Rattle.replica.specs.Changing.{ChangesView, IsDue, IsNotDue};
ghost use Rattle.orderer.specs.ViewChangeOut.{IsNextView};
ghost use Rattle.replica.specs.Entering.{TakesTick};

use crate::both_parts::BothParts;
use crate::taking::DueWork;
use events::{Outputs, Stop};
use std::alloc::Global;
use terms::View;

impl BothParts {
    /// On a timeout the replica sends an open fetch again. If a request waits or the replica is inactive, it moves to
    /// the next view.
    pub(crate) fn on_timeout(
        &mut self,
        alloc: Global,
        outputs: &mut Outputs,
    ) -> Result<DueWork, Stop>
        requires first { outputs.old.items ≡ [] }
        ensures ok { IfOk result (λ due_work. TakesTick self.old due_work self.new outputs.new.items) }
        ensures party { IsOneParty self.old self.new }
    {
        self.are_one();
        self.judges_changes();
        self.multicast_fetch(alloc, outputs)?;
        let Some(view) = self.due_view() else {
            return Ok(DueWork::Nothing);
        };
        if !self.change_view(alloc, view, outputs)? {
            return Ok(DueWork::Nothing);
        }
        self.begin_view(alloc, outputs)
    }

    // The view to which a timeout moves the replica, if any.
    fn due_view(&self) -> Option<View>
        ensures above { IfSome result (λ view. IsNextView self.now.orderer view.0) }
        ensures due { IfSome result (λ view. IsDue self.now view.0) }
        ensures none { IfNone result (IsNotDue self.now) }
    {
        if self.orderer.is_active() && self.desk.none_waits() {
            return None;
        }
        self.orderer.next_view()
    }

    /// Moves to a later view and multicasts the view change for it. Does nothing if the keys are spent or the frame
    /// would be too long. Returns whether it moved.
    pub(crate) fn change_view(
        &mut self,
        alloc: Global,
        view: View,
        outputs: &mut Outputs,
    ) -> Result<bool, Stop>
        requires { IsNextView self.old.orderer view.0 }
        ensures ok { IfOk result (ChangesView view.0 self.old outputs.old.items self.new outputs.new.items) }
        ensures party { IsOneParty self.old self.new }
    {
        self.orderer.keeps();
        let checkpoints = self.desk.entries(alloc)?;
        let Some(frame) = self.orderer.sign_change(alloc, view, checkpoints)? else {
            return Ok(false);
        };
        self.orderer.leave_for(view);
        self.orderer.multicast_frame(alloc, &frame, outputs)?;
        Ok(true)
    }
}
