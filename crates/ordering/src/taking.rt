//! Messages that a log takes or drops.

ghost use Rattle.std.specs.Prelude.{◌≡◌};
ghost use Rattle.std.specs.Arc.{arc_value};
ghost use Rattle.ordering.specs.Taking.{fault_beside, ordering_fault, proposal_fault, preprepare_fault};
ghost use Rattle.ordering.specs.Messages.{preprepare_fault_of, prepare_fault_of, commit_fault_of, checkpoint_fault_of, LogTakesBatch, LogTakesPrepare, LogTakesCommit, LogTakesCheckpoint};

use crate::batch::HashedBatch;
use crate::dropped::Dropped;
use crate::log::{Log, NUMBERS_END};
use crate::votes::{Phase, Vote};
use sha2::{Digest as _, Sha256};
use std::sync::Arc;
use terms::{Digest, Number, ReplicaId, View};
use wire::{Checkpoint, CheckpointEntry, Commit, PrePrepare, Prepare};

impl Log {
    // Why the log would drop an ordering message, whatever its batch.
    fn ordering_fault(&self, may_send: bool, view: View, number: Number) -> Option<Dropped>
        ensures { result ≡ ordering_fault self.now may_send view.0 number.0 }
    {
        if !may_send {
            return Some(Dropped::UnknownSender);
        }
        if !self.is_active_in(view) {
            return Some(Dropped::WrongView);
        }
        if !self.is_in_marks(number) {
            return Some(Dropped::OutOfMarks);
        }
        None
    }

    fn proposal_fault(&self, sender: ReplicaId, view: View, number: Number) -> Option<Dropped>
        ensures { result ≡ proposal_fault self.now sender.0 view.0 number.0 }
    {
        self.ordering_fault(sender.0 == self.primary(view).0, view, number)
    }

    /// Why the log would drop a pre-prepare, if it would. It hashes the batch only if one is logged already.
    pub fn preprepare_fault(&self, sender: ReplicaId, message: &PrePrepare) -> Option<Dropped>
        ensures { result ≡ preprepare_fault_of self.now sender message.now }
    {
        if let Some(fault) = self.proposal_fault(sender, message.view, message.number) {
            return Some(fault);
        }
        match self.logged_digest(message.number) {
            Some(first) => fault_beside(Some(first), &Sha256::digest(&message.batch.text)),
            None => None,
        }
    }

    fn batch_fault(
        &self,
        sender: ReplicaId,
        view: View,
        number: Number,
        batch: &HashedBatch,
    ) -> Option<Dropped>
        ensures { result ≡ preprepare_fault self.now sender.0 view.0 number.0 batch.now }
    {
        if let Some(fault) = self.proposal_fault(sender, view, number) {
            return Some(fault);
        }
        fault_beside(self.logged_digest(number), &batch.digest())
    }

    /// Takes the primary's pre-prepare of a batch. Doesn't check the requests, which have to be authentic.
    #[tactic(auto, using(crate::proofs::Faults::batch_in_marks))]
    pub fn on_preprepare(
        &mut self,
        sender: ReplicaId,
        view: View,
        number: Number,
        batch: Arc<HashedBatch>,
    ) -> Result<(), Dropped>
        ensures { LogTakesBatch self.old self.new sender view number (arc_value batch) result }
    {
        if let Some(fault) = self.batch_fault(sender, view, number, &batch) {
            return Err(fault);
        }
        self.put_batch(number, batch);
        Ok(())
    }

    fn prepare_fault(&self, sender: ReplicaId, prepare: &Prepare) -> Option<Dropped>
        ensures { result ≡ prepare_fault_of self.now sender prepare.now }
    {
        let is_backup = sender.0 < self.replicas() && sender.0 != self.primary(prepare.view).0;
        if let Some(fault) = self.ordering_fault(is_backup, prepare.view, prepare.number) {
            return Some(fault);
        }
        let first = self.vote_of(Phase::Prepare, prepare.number, sender);
        fault_beside(first, &prepare.digest)
    }

    /// Takes a backup's prepare.
    #[tactic(auto, using(crate::proofs::Faults::prepare_in_marks, crate::proofs::Faults::prepare_known))]
    pub fn on_prepare(&mut self, sender: ReplicaId, prepare: &Prepare) -> Result<(), Dropped>
        ensures { LogTakesPrepare self.old self.new sender prepare.now result }
    {
        if let Some(fault) = self.prepare_fault(sender, prepare) {
            return Err(fault);
        }
        let vote = Vote {
            sender,
            digest: prepare.digest,
        };
        self.add_vote(Phase::Prepare, prepare.number, vote);
        Ok(())
    }

    fn commit_fault(&self, sender: ReplicaId, commit: &Commit) -> Option<Dropped>
        ensures { result ≡ commit_fault_of self.now sender commit.now }
    {
        let is_known = sender.0 < self.replicas();
        if let Some(fault) = self.ordering_fault(is_known, commit.view, commit.number) {
            return Some(fault);
        }
        let first = self.vote_of(Phase::Commit, commit.number, sender);
        fault_beside(first, &commit.digest)
    }

    /// Takes a replica's commit.
    #[tactic(auto, using(crate::proofs::Faults::commit_in_marks, crate::proofs::Faults::commit_known))]
    pub fn on_commit(&mut self, sender: ReplicaId, commit: &Commit) -> Result<(), Dropped>
        ensures { LogTakesCommit self.old self.new sender commit.now result }
    {
        if let Some(fault) = self.commit_fault(sender, commit) {
            return Err(fault);
        }
        let vote = Vote {
            sender,
            digest: commit.digest,
        };
        self.add_vote(Phase::Commit, commit.number, vote);
        Ok(())
    }

    fn checkpoint_fault(&self, sender: ReplicaId, checkpoint: &Checkpoint) -> Option<Dropped>
        ensures { result ≡ checkpoint_fault_of self.now sender checkpoint.now }
    {
        if sender.0 >= self.replicas() {
            return Some(Dropped::UnknownSender);
        }
        if checkpoint.number.0 <= self.low().0 || checkpoint.number.0 >= NUMBERS_END {
            return Some(Dropped::OutOfMarks);
        }
        fault_beside(self.root_of(sender, checkpoint.number), &checkpoint.root)
    }

    /// Takes a replica's checkpoint.
    pub fn on_checkpoint(
        &mut self,
        sender: ReplicaId,
        checkpoint: &Checkpoint,
    ) -> Result<(), Dropped>
        ensures { LogTakesCheckpoint self.old self.new sender checkpoint.now result }
    {
        if let Some(fault) = self.checkpoint_fault(sender, checkpoint) {
            return Err(fault);
        }
        let entry = CheckpointEntry {
            number: checkpoint.number,
            digest: checkpoint.root,
        };
        self.add_checkpoint(sender, entry);
        Ok(())
    }
}

// The first digest stays.
fn fault_beside(first: Option<Digest>, digest: &Digest) -> Option<Dropped>
    ensures { result ≡ fault_beside first digest.now }
{
    match first {
        Some(first) => {
            if first == *digest {
                Some(Dropped::Duplicate)
            } else {
                Some(Dropped::Conflict)
            }
        }
        None => None,
    }
}
