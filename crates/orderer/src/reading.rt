//! What the orderer tells of its log, its view changes and its numbers.

ghost use Rattle.std.specs.Prelude.{◌≡◌, ◌≢◌, ◌^◌, ◌<◌, ◌≤◌, Some, true, IfNone, IfSome, IsFalse, IsTrue};
ghost use Rattle.wire_format.specs.Views.{checkpoint_entry_data};
ghost use Rattle.ordering.specs.Log.{committed_batch, is_in_marks};
ghost use Rattle.ordering.specs.Log as logs;
ghost use Rattle.ordering.specs.RowView.{batch_lent};
ghost use Rattle.protocol.specs.System.Trace.{Has};
ghost use Rattle.view_change.specs.ReceivedData.{HeldData};
ghost use Rattle.view_change.specs.ReceivedView.{IsHeldIn};
ghost use Rattle.orderer.specs.Numbering.{IsFree, next_number};

use crate::orderer::Orderer;
use ordering::HashedBatch;
use std::sync::Arc;
use terms::{Number, View};
use wire::CheckpointEntry;

impl Orderer {
    /// Whether the replica is active in its view.
    pub fn is_active(&self) -> bool
        ensures { result ≡ self.now.log.active }
    {
        self.log.is_active()
    }

    /// The greatest view that the replica sent a view change for, 0 before the first.
    pub fn target(&self) -> View
        ensures { result.0 ≡ self.now.target }
    {
        self.target
    }

    /// The low mark.
    pub fn low(&self) -> Number
        ensures value { result.0 ≡ self.now.log.low }
        ensures fits { result.0 < 2 ^ 48 }
    {
        self.log.low()
    }

    /// How many numbers are within the marks.
    pub fn span(&self) -> u64
        ensures value { result ≡ self.now.log.span }
        ensures few { result ≤ 32 }
    {
        self.log.span()
    }

    /// The batch of a number, if it is committed.
    pub fn next_batch(&self, number: Number) -> Option<&Arc<HashedBatch>>
        ensures { batch_lent result ≡ committed_batch self.now.log number.0 }
    {
        self.log.next_batch(number)
    }

    /// Whether the replica itself sent this checkpoint, and a quorum with it.
    pub fn is_stable(&self, entry: &CheckpointEntry) -> bool
        ensures { result ≡ logs.is_stable self.now.log (checkpoint_entry_data entry.now) }
    {
        self.log.is_stable(entry)
    }

    /// Whether a view change is stored with this frame. Takes no memory.
    pub fn has_frame(&self, bytes: &[u8]) -> bool
        ensures held { IsTrue result → (h : HeldData) × IsHeldIn self.now.received bytes.now h }
        ensures none { IsFalse result
            → (h : HeldData) → Has (λ o. o ≡ Some h) self.now.received.held → h.frame ≢ bytes.now }
    {
        self.received.has_frame(bytes)
    }

    /// The number above the low mark and all used ones, if the replica, as the active primary, may assign it to a
    /// batch.
    pub fn free_number(&self) -> Option<Number>
        ensures within { IfSome result (λ number. is_in_marks self.now.log number.0 ≡ true) }
        ensures next { IfSome result (λ number. number.0 ≡ next_number self.now) }
        ensures free { IfSome result (λ _. IsFree self.now) }
        ensures none { IfNone result (IsFree self.now → ⊥) }
    {
        let log = &self.log;
        let number = Number(self.used.0.max(log.low().0).checked_add(1)?);
        if log.is_active() && log.me().0 == log.primary(log.view()).0 && log.is_in_marks(number) {
            Some(number)
        } else {
            None
        }
    }
}
