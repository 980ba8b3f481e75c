//! Checkpoints: the replica's own after each period, those of others, and what a quorum of them starts.

ghost use Rattle.std.specs.Prelude.{◌≡◌, ◌^◌, ◌<◌, [], IfOk, OnOk};
ghost use Rattle.wire_format.specs.Messages.{checkpoint};
ghost use Rattle.wire_format.specs.Views.{checkpoint_entry_data};
ghost use Rattle.replica.specs.Going.{IsOneParty};
ghost use Rattle.replica.specs.Checkpoints.{StartsTransferIfBehind, IsDueKept, MulticastsDueCheckpoint, StabilizesMarks};
ghost use Rattle.replica.specs.Marking.{MovesMarks};
ghost use Rattle.replica.specs.Entering.{TakesMessage};

use crate::both_parts::BothParts;
use crate::taking::DueWork;
use events::{Outputs, Stop};
use orderer::entry_in;
use std::alloc::Global;
use terms::{Number, ReplicaId};
use wire::{Checkpoint, CheckpointEntry};

impl BothParts {
    /// Takes a checkpoint of another replica. If it completes a quorum that has the replica's own, the marks move. If
    /// the quorum lacks the replica's own and is ahead of the executed state, the replica fetches that state.
    pub(crate) fn on_checkpoint(
        &mut self,
        alloc: Global,
        sender: ReplicaId,
        message: &Checkpoint,
        outputs: &mut Outputs,
    ) -> Result<DueWork, Stop>
        requires first { outputs.old.items ≡ [] }
        ensures ok { IfOk result (λ due_work. TakesMessage sender
            (checkpoint message.now.number.0 message.now.root)
            self.old due_work self.new outputs.new.items) }
        ensures party { IsOneParty self.old self.new }
    {
        self.are_one();
        if !self.orderer.take_checkpoint(sender, message) {
            return Ok(DueWork::Nothing);
        }
        let entry = entry_in(message);
        if self.try_stabilize(&entry) {
            return Ok(DueWork::Waiting);
        }
        self.start_transfer_if_behind(alloc, &entry, outputs)?;
        Ok(DueWork::Nothing)
    }

    /// Multicasts the checkpoint of the executed state, if one is due. That state is then the newest kept one.
    pub(crate) fn multicast_due_checkpoint(
        &mut self,
        alloc: Global,
        outputs: &mut Outputs,
    ) -> Result<(), Stop>
        requires fits { self.old.desk.executed.state.number < 2 ^ 48 }
        requires kept { IsDueKept self.old.desk }
        ensures ok { OnOk result
            (MulticastsDueCheckpoint self.old outputs.old.items self.new outputs.new.items) }
        ensures party { IsOneParty self.old self.new }
    {
        let Some(entry) = self.desk.due_checkpoint() else {
            return Ok(());
        };
        self.orderer.multicast_checkpoint(alloc, entry, outputs)?;
        self.orderer.keeps();
        self.try_stabilize(&entry);
        Ok(())
    }

    // Moves the marks to this checkpoint if it is stable, and returns whether it is. Only the checkpoint that was
    // counted last can have become stable.
    fn try_stabilize(&mut self, entry: &CheckpointEntry) -> bool
        requires { entry.now.number.0 < 2 ^ 48 }
        ensures settles { StabilizesMarks (checkpoint_entry_data entry.now) self.old self.new result }
        ensures party { IsOneParty self.old self.new }
    {
        if !self.orderer.is_stable(entry) {
            return false;
        }
        self.move_marks(entry.number);
        true
    }

    /// Moves the low mark up to this number, and drops the rows, entries of P and Q, and states below it.
    pub(crate) fn move_marks(&mut self, low: Number)
        requires { low.0 < 2 ^ 48 }
        ensures moves { MovesMarks low.0 self.old self.new }
        ensures party { IsOneParty self.old self.new }
    {
        self.orderer.cut(low);
        self.desk.drop_below(self.orderer.low());
    }

    // Starts a state transfer to a checkpoint that a quorum sent, if it is ahead of the executed state and of an open
    // transfer.
    fn start_transfer_if_behind(
        &mut self,
        alloc: Global,
        entry: &CheckpointEntry,
        outputs: &mut Outputs,
    ) -> Result<(), Stop>
        ensures ok { OnOk result (StartsTransferIfBehind (checkpoint_entry_data entry.now)
            self.old outputs.old.items self.new outputs.new.items) }
        ensures party { IsOneParty self.old self.new }
    {
        if !self.orderer.has_quorum(entry) || !self.desk.set_target(alloc, entry)? {
            return Ok(());
        }
        self.multicast_fetch(alloc, outputs)
    }
}
