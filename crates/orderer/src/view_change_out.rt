//! The replica's own view changes.

ghost use Rattle.std.specs.Prelude.{◌≡◌, ◌+◌, ◌^◌, ◌≤◌, false, length, IfNone, IfOk, IfSome, IsTrue, OnOk};
ghost use Rattle.wire_format.specs.Views.{checkpoint_entries_data};
ghost use Rattle.ordering.specs.Log.{left};
ghost use Rattle.desk.specs.Keeping.{is_ascending};
ghost use Rattle.orderer.specs.Going.{KeepsParty};
ghost use Rattle.orderer.specs.ViewChangeOut.{IsNextView, MaySignChange, target_view};
ghost use Rattle.orderer.specs.Multicasting.{OutputsHaveViewChange, MulticastsLastAlso};

use crate::orderer::Orderer;
use events::{Outputs, Stop};
use frame_endpoint::view_change_message;
use pq_sets::make;
use std::alloc::Global;
use terms::View;
use view_change::{Change, copy_change};
use wire::CheckpointEntry;

/// Views end below this.
const VIEWS_END: u64 = 1 << 48;

impl Orderer {
    /// The greater of the current view and the last view that the replica sent a view change for.
    pub(crate) fn target_view(&self) -> View
        ensures { result.0 ≡ target_view self.now }
    {
        View(self.log.view().0.max(self.target.0))
    }

    /// The view after the aimed one, if there is one.
    pub fn next_view(&self) -> Option<View>
        ensures above { IfSome result (λ view. IsNextView self.now view.0) }
        ensures next { IfSome result (λ view. view.0 ≡ target_view self.now + 1) }
        ensures none { IfNone result (2 ^ 48 ≤ target_view self.now + 1) }
    {
        let next = self.target_view().0.checked_add(1)?;
        if next < VIEWS_END {
            Some(View(next))
        } else {
            None
        }
    }

    /// Signs the view change for the view and stores it beside the others'. The checkpoints are at most three, in
    /// ascending order. Returns the frame, or None if it can't be signed.
    pub fn sign_change(
        &mut self,
        alloc: Global,
        view: View,
        checkpoints: Vec<CheckpointEntry>,
    ) -> Result<Option<Vec<u8>>, Stop>
        requires few { length (checkpoint_entries_data checkpoints) ≤ 3 }
        requires order { IsTrue (is_ascending (checkpoint_entries_data checkpoints)) }
        ensures ok { IfOk result (MaySignChange view.0 (checkpoint_entries_data checkpoints) self.old self.new) }
        ensures party { KeepsParty self.old self.new }
    {
        self.keeps();
        let low = self.log.low();
        let Some(change) = make(alloc, view, low, checkpoints, &self.pq_sets)? else {
            return Ok(None);
        };
        let held = Change {
            sender: self.log.me(),
            change,
        };
        // A view change that others would refuse isn't signed. So each spent key has signed a frame that was sent.
        if self.received.refusal(self.log.view(), &held).is_some() {
            return Ok(None);
        }
        let said = copy_change(alloc, &held)?;
        let Some(frame) = self.sign(alloc, view_change_message(said.change))? else {
            return Ok(None);
        };
        if !self.receive(alloc, held, &frame)? {
            unreachable!();
        }
        Ok(Some(frame))
    }

    /// Leaves the current view for a later one. The replica isn't active there yet.
    pub fn leave_for(&mut self, view: View)
        ensures { self.new ≡ record self.old { log = left self.old.log; target = view.0 } }
    {
        self.log.leave();
        self.target = view;
    }

    /// Multicasts the replica's own view change again.
    pub fn multicast_view_change_again(
        &mut self,
        alloc: Global,
        outputs: &mut Outputs,
    ) -> Result<(), Stop>
        ensures ok { OnOk result (MulticastsLastAlso false 0 OutputsHaveViewChange self.old outputs.old.items self.new
            outputs.new.items) }
        ensures same { self.new ≡ self.old }
    {
        let this = &*self;
        match this.received.frame_of(this.log.me()) {
            Some(frame) => this.multicast_frame(alloc, frame, outputs),
            None => Ok(()),
        }
    }
}
