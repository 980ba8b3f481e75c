//! The orderer's checkpoints and its marks.

ghost use Rattle.std.specs.Prelude.{◌≡◌, ℕ, ◌*◌, ◌+◌, ◌^◌, ◌<◌, Some, OnOk, nat_le, option_map, true};
ghost use Rattle.wire_format.specs.Messages.{checkpoint};
ghost use Rattle.wire_format.specs.Views.{checkpoint_entry_data};
ghost use Rattle.ordering.specs.Log.{count_checkpoints};
ghost use Rattle.orderer.specs.Going.{KeepsParty};
ghost use Rattle.orderer.specs.PqSets.{CutsLog};
ghost use Rattle.orderer.specs.Checkpoints.{MulticastsCheckpoint, TakesCheckpoint, said_entry};
ghost use Rattle.orderer.specs.Multicasting.{OutputsHaveCheckpoint, Multicasts, MulticastsLastAlso};

use crate::orderer::Orderer;
use events::{Outputs, Stop};
use frame_endpoint::checkpoint_message;
use std::alloc::Global;
use terms::{Number, ReplicaId};
use wire::{Checkpoint, CheckpointEntry};

impl Orderer {
    /// Takes a replica's checkpoint, if it has no fault and is one of its sender's three latest. Returns whether.
    pub fn take_checkpoint(&mut self, sender: ReplicaId, checkpoint: &Checkpoint) -> bool
        ensures takes { TakesCheckpoint self.old sender checkpoint.now self.new result }
        ensures party { KeepsParty self.old self.new }
        ensures received { self.new.received ≡ self.old.received }
    {
        if self.log.on_checkpoint(sender, checkpoint).is_err() {
            return false;
        }
        self.log.has_checkpoint(sender, &entry_in(checkpoint))
    }

    /// Multicasts the replica's own checkpoint, and counts it.
    pub fn multicast_checkpoint(
        &mut self,
        alloc: Global,
        entry: CheckpointEntry,
        outputs: &mut Outputs,
    ) -> Result<(), Stop>
        requires { entry.number.0 < 2 ^ 48 }
        ensures ok { OnOk result (MulticastsCheckpoint (checkpoint_entry_data entry) self.old outputs.old.items self.new
            outputs.new.items) }
        ensures party { KeepsParty self.old self.new }
        ensures received { self.new.received ≡ self.old.received }
    {
        self.keeps();
        self.multicast_checkpoint_message(alloc, entry, outputs)?;
        let me = self.log.me();
        self.log.add_checkpoint(me, entry);
        self.last_checkpoint = Some(entry);
        Ok(())
    }

    /// Multicasts the replica's latest checkpoint again, if there was one, also at or below the low mark.
    pub(crate) fn multicast_checkpoint_again(
        &mut self,
        alloc: Global,
        outputs: &mut Outputs,
    ) -> Result<(), Stop>
        ensures ok { OnOk result ((place : ℕ) → MulticastsLastAlso true place OutputsHaveCheckpoint self.old
            outputs.old.items self.new outputs.new.items) }
        ensures same { self.new ≡ self.old }
    {
        match self.last_checkpoint {
            Some(entry) => self.multicast_checkpoint_message(alloc, entry, outputs),
            None => Ok(()),
        }
    }

    fn multicast_checkpoint_message(
        &mut self,
        alloc: Global,
        entry: CheckpointEntry,
        outputs: &mut Outputs,
    ) -> Result<(), Stop>
        ensures said { OnOk result (Multicasts self.old (checkpoint entry.number.0 entry.digest)
            outputs.old.items outputs.new.items) }
        ensures same { self.new ≡ self.old }
    {
        let message = checkpoint_message(entry.number, entry.digest);
        self.multicast(alloc, message, outputs)
    }

    /// Whether a quorum of replicas sent this checkpoint.
    pub fn has_quorum(&self, entry: &CheckpointEntry) -> bool
        ensures { result ≡ nat_le (2 * self.now.log.faults + 1)
            (count_checkpoints self.now.log (checkpoint_entry_data entry.now)) }
    {
        self.log.count_checkpoints(entry) > 2 * self.log.faults()
    }

    /// Moves the low mark up to this number, and drops the rows up to it.
    pub fn cut(&mut self, low: Number)
        requires { low.0 < 2 ^ 48 }
        ensures { CutsLog low.0 self.old self.new }
    {
        self.log.keeps();
        self.log.cut(low);
        self.pq_sets.cut(self.log.low());
    }
}

/// The number and root that a checkpoint says.
pub fn entry_in(message: &Checkpoint) -> CheckpointEntry
    ensures { checkpoint_entry_data result ≡ said_entry message.now }
{
    CheckpointEntry {
        number: message.number,
        digest: message.root,
    }
}
