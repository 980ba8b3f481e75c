//! New views: the replica's own, and those of others.

ghost use Rattle.std.specs.Prelude.{◌≡◌, ◌↔◌, None, IfNone, IfOk, IfSome, IsTrue, OnOk};
ghost use Rattle.wire_format.specs.Lists.{Each};
ghost use Rattle.wire_format.specs.Spelling.{IsBatch};
ghost use Rattle.wire_format.specs.Views.{new_view_data};
ghost use Rattle.view_change.specs.Checking.{new_view_refusal};
ghost use Rattle.view_change.specs.ReceivedView.{judging_configuration};
ghost use Rattle.view_change.specs.Sets.{texts_of};
ghost use Rattle.orderer.specs.EnterView.{HasNoSelection, IsSelection, MaySignView, new_view_of};
ghost use Rattle.orderer.specs.Multicasting.{OutputsHaveNewView, MulticastsAlso};

use crate::orderer::Orderer;
use events::{Outputs, Stop};
use frame_endpoint::new_view_message;
use std::alloc::Global;
use terms::{NoMemory, ReplicaId};
use view_change::{NewViewFault, Selection, assemble, check_new_view, select};
use wire::NewView;

impl Orderer {
    /// The selection for the view that the replica moves to, if it is that view's primary and a selection exists.
    pub fn selection(&self, alloc: Global) -> Result<Option<Selection>, NoMemory>
        ensures selects { IfOk result (λ o. IfSome o
            (λ s. IsSelection self.now s.start.0 s.root (texts_of s.batches.items))) }
        ensures batches { IfOk result (λ o. IfSome o (λ s. Each (IsBatch 0) (texts_of s.batches.items))) }
        ensures none { IfOk result (λ o. IfNone o (HasNoSelection self.now)) }
    {
        let view = self.target;
        if self.log.is_active() || self.log.primary(view).0 != self.log.me().0 {
            return Ok(None);
        }
        let set = self.received.changes_for(alloc, view)?;
        let held = self.pq_sets.batches(alloc)?;
        select(alloc, &set, self.received.sizes(), view, &held)
    }

    /// Signs the new view with this selection. Returns the frame, or None if the keys are spent.
    pub fn sign_new_view(
        &mut self,
        alloc: Global,
        selection: &Selection,
    ) -> Result<Option<Vec<u8>>, Stop>
        requires selects { IsSelection self.old selection.now.start.0 selection.now.root
            (texts_of selection.now.batches.items) }
        requires batches { Each (IsBatch 0) (texts_of selection.now.batches.items) }
        ensures signs { IfOk result (MaySignView (new_view_of self.old selection.now.start.0 selection.now.root
            (texts_of selection.now.batches.items)) self.old self.new) }
        ensures same { self.new ≡ record self.old { spent = self.new.spent } }
    {
        let message = assemble(alloc, &self.received, self.target, selection)?;
        self.sign(alloc, new_view_message(message))
    }

    /// Whether the rules let the replica enter the view by this new view.
    pub fn may_enter(&self, alloc: Global, sender: ReplicaId, new: &NewView) -> Result<bool, Stop>
        ensures { IfOk result (λ may. IsTrue may ↔ (new_view_refusal (judging_configuration self.now.received)
            self.now.log.view self.now.target sender.0 (new_view_data new.now) ≡ None)) }
    {
        let view = self.log.view();
        match check_new_view(alloc, &self.received, view, self.target, sender, new) {
            Ok(()) => Ok(true),
            Err(NewViewFault::NoMemory) => Err(Stop::NoMemory),
            Err(_) => Ok(false),
        }
    }

    /// Multicasts the replica's own new view of the current view again, if there is one.
    pub(crate) fn multicast_new_view_again(
        &mut self,
        alloc: Global,
        outputs: &mut Outputs,
    ) -> Result<(), Stop>
        ensures ok { OnOk result (MulticastsAlso 0 1 OutputsHaveNewView self.old outputs.old.items self.new
            outputs.new.items) }
        ensures same { self.new ≡ self.old }
    {
        let own = &*self;
        match &own.new_view {
            Some(frame) => own.multicast_frame(alloc, frame, outputs),
            None => Ok(()),
        }
    }
}
