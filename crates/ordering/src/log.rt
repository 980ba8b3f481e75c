//! The message log of one replica.

ghost use Rattle.std.specs.Prelude.{◌≡◌, ◌+◌, ◌*◌, ◌^◌, ◌<◌, ◌≤◌, IfOk, true, false};
ghost use Rattle.std.specs.Arc.{arc_value};
ghost use Rattle.wire_format.specs.Views.{checkpoint_entry_data};
ghost use Rattle.ordering.specs.Checkpoints.{root_at};
ghost use Rattle.ordering.specs.Log as spec;
ghost use Rattle.ordering.specs.Keeping.{IsRow, IsLog};
ghost use Rattle.ordering.specs.RowView.{batch_lent};
ghost use Rattle.ordering.specs.LogView.{has_checkpoint};
ghost use Rattle.ordering.specs.Log.{with_checkpoint_of};

use crate::batch::HashedBatch;
use crate::checkpoints::Checkpoints;
use crate::places::{
    add_checkpoint_at, add_vote_at, cut_slots, enter_slots, no_checkpoints, no_slots, put_batch_at,
};
use crate::row::Slot;
use crate::votes::{Phase, Vote};
use std::alloc::Global;
use std::marker::Model;
use std::sync::Arc;
use terms::{Digest, NoMemory, Number, ReplicaId, View};
use wire::CheckpointEntry;

/// Numbers end below this.
pub const NUMBERS_END: u64 = 1 << 48;

/// The messages of one replica's view: a row for each number within its marks, with the logged batch and the votes for
/// it, and the last three checkpoints of each replica. Of earlier views each row keeps the batch that was committed
/// then.
///
/// A call reads at most the votes of one row, ten prepares and ten commits, or the three checkpoints of each replica;
/// `cut` alone reads all rows. A log allocates its memory when it is made, under 1 KB for each number within the marks
/// and for each replica, and none later. Batches bring their own memory, at most two for each number within the marks.
#[derive(Drop)]
pub struct Log {
    me: ReplicaId,
    faults: u8,
    span: u64,
    view: View,
    active: bool,
    low: Number,
    slots: Vec<Slot>,
    checkpoints: Vec<Checkpoints>,
}

impl Model for Log {
    ghost use Rattle.ordering.specs.Log.{LogData};

    ghost Value = { LogData };

    ghost use Rattle.ordering.specs.Keeping.{IsLog};
    ghost use Rattle.ordering.specs.LogView.{log_data};

    ghost view = { log_data };

    ghost invariant = { λ l. IsLog (log_data l) };
}

impl Log {
    /// The log of the replica `me` before its first message, in view 0. Up to `faults` of the `3 * faults + 1` replicas
    /// may be faulty, and the marks span `span` numbers.
    pub fn new(alloc: Global, me: ReplicaId, faults: u8, span: u64) -> Result<Log, NoMemory>
        requires some { 1 ≤ faults }
        requires few { faults ≤ 3 }
        requires me { me.0 < 3 * faults + 1 }
        requires span { span ≤ 32 }
        ensures { IfOk result (λ log. log ≡ spec.new_log me.0 faults span) }
    {
        let slots = no_slots(alloc, span)?;
        let checkpoints = no_checkpoints(alloc, 3 * faults + 1)?;
        Ok(Log {
            me,
            faults,
            span,
            view: View(0),
            active: true,
            low: Number(0),
            slots,
            checkpoints,
        })
    }

    /// The replica to which the log belongs.
    pub fn me(&self) -> ReplicaId
        ensures { result.0 ≡ self.now.me }
    {
        self.me
    }

    /// How many replicas may be faulty.
    pub fn faults(&self) -> u8
        ensures value { result ≡ self.now.faults }
        ensures some { 1 ≤ result }
        ensures few { result ≤ 3 }
    {
        self.faults
    }

    /// How many replicas there are.
    pub fn replicas(&self) -> u8
        ensures value { result ≡ spec.replicas self.now }
        ensures some { 4 ≤ result }
        ensures few { result ≤ 10 }
    {
        3 * self.faults + 1
    }

    /// The view.
    pub fn view(&self) -> View
        ensures { result.0 ≡ self.now.view }
    {
        self.view
    }

    /// The low mark.
    pub fn low(&self) -> Number
        ensures value { result.0 ≡ self.now.low }
        ensures fits { result.0 < 2 ^ 48 }
    {
        self.low
    }

    /// How many numbers are within the marks.
    pub fn span(&self) -> u64
        ensures value { result ≡ self.now.span }
        ensures few { result ≤ 32 }
    {
        self.span
    }

    /// Tells a proof the invariant of a log. Does nothing.
    pub fn keeps(&self)
        ensures { IsLog self.now }
    {
        let _low = &self.low;
    }

    /// The primary of a view.
    pub fn primary(&self, view: View) -> ReplicaId
        ensures { result.0 ≡ spec.primary self.now view.0 }
    {
        ReplicaId((view.0 % u64::from(self.replicas())) as u8)
    }

    /// Whether the replica is active in the view.
    pub fn is_active_in(&self, view: View) -> bool
        ensures { result ≡ spec.is_active_in self.now view.0 }
    {
        view.0 == self.view.0 && self.active
    }

    /// Leaves the view: the replica is not active any more, as when it moves to a later view.
    pub fn leave(&mut self)
        ensures { self.new ≡ spec.left self.old }
    {
        self.active = false;
    }

    /// Whether the replica is active in its view.
    pub fn is_active(&self) -> bool
        ensures { result ≡ self.now.active }
    {
        self.active
    }

    /// Enters a later view, and is active in it. Nothing is logged or voted for in it yet. Committed batches stay.
    pub fn enter(&mut self, view: View)
        ensures { self.new ≡ spec.entered self.old view.0 }
    {
        let alloc = *self.slots.allocator();
        enter_slots(&mut self.slots, alloc, self.faults, self.me);
        self.view = view;
        self.active = true;
    }

    /// Whether the number is within the marks.
    pub fn is_in_marks(&self, number: Number) -> bool
        ensures { result ≡ spec.is_in_marks self.now number.0 }
    {
        let low = self.low.0;
        low < number.0 && number.0 - low <= self.span && number.0 < NUMBERS_END
    }

    fn slot(&self, number: Number) -> &Slot
        requires { spec.is_in_marks self.now number.0 ≡ true }
        ensures row { result.now ≡ spec.row_of self.now number.0 }
        ensures valid { IsRow (spec.replicas self.now) (spec.row_of self.now number.0) }
    {
        &self.slots[(number.0 - self.low.0 - 1) as usize]
    }

    /// Logs a batch: the replica's own, when it proposes the batch, or another's that has no fault.
    pub fn put_batch(&mut self, number: Number, batch: Arc<HashedBatch>)
        requires { spec.is_in_marks self.old number.0 ≡ true }
        ensures { self.new ≡ spec.with_batch self.old number.0 (arc_value batch) }
    {
        let at = (number.0 - self.low.0 - 1) as usize;
        put_batch_at(&mut self.slots, at, batch);
    }

    /// Counts a vote, unless its sender has one in the phase. The replica's own is counted when it is sent.
    pub fn add_vote(&mut self, phase: Phase, number: Number, vote: Vote)
        requires number { spec.is_in_marks self.old number.0 ≡ true }
        requires sender { vote.sender.0 < spec.replicas self.old }
        ensures { self.new ≡ spec.with_vote_in phase self.old number.0 vote }
    {
        let at = (number.0 - self.low.0 - 1) as usize;
        add_vote_at(&mut self.slots, at, phase, vote);
    }

    /// The batch that is logged for the number.
    pub fn logged_batch(&self, number: Number) -> Option<&Arc<HashedBatch>>
        ensures { batch_lent result ≡ spec.logged_batch self.now number.0 }
    {
        if !self.is_in_marks(number) {
            return None;
        }
        self.slot(number).batch()
    }

    /// The digest of the batch that is logged for the number.
    pub fn logged_digest(&self, number: Number) -> Option<Digest>
        ensures { result ≡ spec.logged_digest self.now number.0 }
    {
        if !self.is_in_marks(number) {
            return None;
        }
        self.slot(number).digest()
    }

    /// The digest that a replica prepared, or committed, for the number.
    pub fn vote_of(&self, phase: Phase, number: Number, sender: ReplicaId) -> Option<Digest>
        ensures { result ≡ spec.vote_of phase self.now number.0 sender.0 }
    {
        if !self.is_in_marks(number) {
            return None;
        }
        self.slot(number).vote_of(phase, sender)
    }

    /// Whether the number has a batch that is prepared.
    pub fn is_prepared(&self, number: Number) -> bool
        ensures { result ≡ spec.is_prepared self.now number.0 }
    {
        self.is_in_marks(number) && self.slot(number).is_prepared(self.faults)
    }

    /// Whether the number has a batch that is committed.
    pub fn is_committed(&self, number: Number) -> bool
        ensures { result ≡ spec.is_committed self.now number.0 }
    {
        self.is_in_marks(number) && self.slot(number).is_committed(self.faults, self.me)
    }

    /// The batch of the number, if it is committed in this view, or was in an earlier one.
    pub fn next_batch(&self, number: Number) -> Option<&Arc<HashedBatch>>
        ensures { batch_lent result ≡ spec.committed_batch self.now number.0 }
    {
        if !self.is_in_marks(number) {
            return None;
        }
        let slot = self.slot(number);
        if slot.is_committed(self.faults, self.me) {
            slot.batch()
        } else {
            slot.decided()
        }
    }

    // Whether the replica votes for a batch of this number.
    fn votes_in(&self, phase: Phase, number: Number) -> bool
        ensures { result ≡ spec.votes_in phase self.now number.0 }
    {
        match phase {
            Phase::Prepare => self.me.0 != self.primary(self.view).0,
            Phase::Commit => self.is_prepared(number),
        }
    }

    /// The digest of a batch for which the replica still has to vote, while it is active.
    pub fn due_vote(&self, phase: Phase, number: Number) -> Option<Digest>
        ensures { result ≡ spec.due_vote phase self.now number.0 }
    {
        let is_said = self.vote_of(phase, number, self.me).is_some();
        if !self.active || is_said || !self.votes_in(phase, number) {
            return None;
        }
        self.logged_digest(number)
    }

    /// Counts a checkpoint. The replica's own is counted when it is sent. Of each sender those of the three largest
    /// numbers stay.
    pub fn add_checkpoint(&mut self, sender: ReplicaId, entry: CheckpointEntry)
        requires { sender.0 < spec.replicas self.old }
        ensures { self.new ≡ with_checkpoint_of self.old sender.0 (checkpoint_entry_data entry) }
    {
        add_checkpoint_at(&mut self.checkpoints, sender.0 as usize, entry);
    }

    /// The root of a replica's checkpoint of this number.
    pub(crate) fn root_of(&self, sender: ReplicaId, number: Number) -> Option<Digest>
        requires { sender.0 < spec.replicas self.now }
        ensures { result ≡ root_at (spec.checkpoints_of self.now sender.0) number.0 }
    {
        self.checkpoints[sender.0 as usize].root_at(number)
    }

    /// Whether a replica has sent a checkpoint of this number and root.
    pub fn has_checkpoint(&self, sender: ReplicaId, entry: &CheckpointEntry) -> bool
        requires { sender.0 < spec.replicas self.now }
        ensures { result ≡ has_checkpoint self.now sender entry.now }
    {
        self.checkpoints[sender.0 as usize].has(entry)
    }

    /// How many replicas have sent a checkpoint of this number and root.
    pub fn count_checkpoints(&self, entry: &CheckpointEntry) -> u8
        ensures { result ≡ spec.count_checkpoints self.now (checkpoint_entry_data entry.now) }
    {
        let mut count = 0;
        for sender in 0..self.replicas() {
            if self.has_checkpoint(ReplicaId(sender), entry) {
                count += 1;
            }
        }
        count
    }

    /// Whether a quorum has sent a checkpoint of this number and root, the replica itself among them.
    pub fn is_stable(&self, entry: &CheckpointEntry) -> bool
        ensures { result ≡ spec.is_stable self.now (checkpoint_entry_data entry.now) }
    {
        self.has_checkpoint(self.me, entry) && self.count_checkpoints(entry) > 2 * self.faults
    }

    /// Moves the low mark up, and drops the rows up to it.
    pub fn cut(&mut self, low: Number)
        requires { low.0 < 2 ^ 48 }
        ensures { self.new ≡ spec.cut_to self.old low.0 }
    {
        if low.0 <= self.low.0 {
            return;
        }
        let count = (low.0 - self.low.0).min(self.span) as usize;
        let alloc = *self.slots.allocator();
        cut_slots(&mut self.slots, alloc, count);
        self.low = low;
    }
}
