//! One number's row of a log.

ghost use Rattle.std.specs.Prelude.{◌≡◌, ℕ, ◌<◌, ◌≤◌, Some};
ghost use Rattle.std.specs.Arc.{arc_value};
ghost use Rattle.quorum.specs.Votes.{has_digest};
ghost use Rattle.ordering.specs.Votes.{voted_digest};
ghost use Rattle.ordering.specs.Log.{no_row, digest_of, is_row_prepared, is_row_committed, entered_row, row_votes, with_row_vote};
ghost use Rattle.ordering.specs.Keeping.{IsRow};
ghost use Rattle.ordering.specs.RowView.{batch_lent};

use crate::batch::HashedBatch;
use crate::votes::{MAX_REPLICAS, Phase, Vote, Votes};
use std::alloc::Global;
use std::marker::Model;
use std::sync::Arc;
use terms::{Digest, ReplicaId};

/// One number's row: the batch that is logged in the view, with the prepares and commits, and the batch that was
/// committed in an earlier view.
#[derive(Drop)]
pub struct Slot {
    batch: Option<Arc<HashedBatch>>,
    prepares: Votes,
    commits: Votes,
    decided: Option<Arc<HashedBatch>>,
}

impl Model for Slot {
    ghost use Rattle.ordering.specs.Log.{Row};
    ghost use Rattle.ordering.specs.RowView.{row_data};

    ghost Value = { Row };

    ghost view = { row_data };
}

impl Slot {
    pub fn new(alloc: Global) -> Slot
        ensures { result ≡ no_row }
    {
        Slot {
            batch: None,
            prepares: Votes::new(alloc),
            commits: Votes::new(alloc),
            decided: None,
        }
    }

    /// Enters a later view: only a committed batch stays.
    pub fn enter_view(&mut self, alloc: Global, faults: u8, me: ReplicaId)
        requires { faults ≤ 3 }
        ensures { (n : ℕ) → IsRow n self.old → self.new ≡ entered_row faults n me.0 self.old }
    {
        let committed = self.is_committed(faults, me);
        let batch = self.batch.take();
        if committed {
            self.decided = batch;
        }
        self.prepares = Votes::new(alloc);
        self.commits = Votes::new(alloc);
    }

    /// The batch that was committed in an earlier view.
    pub fn decided(&self) -> Option<&Arc<HashedBatch>>
        ensures { batch_lent result ≡ self.now.decided }
    {
        self.decided.as_ref()
    }

    pub fn put_batch(&mut self, batch: Arc<HashedBatch>)
        ensures { self.new ≡ record self.old { batch = Some (arc_value batch) } }
    {
        self.batch = Some(batch);
    }

    pub fn add_vote(&mut self, phase: Phase, vote: Vote)
        requires { vote.sender.0 < MAX_REPLICAS }
        ensures { self.new ≡ with_row_vote phase self.old vote }
    {
        match phase {
            Phase::Prepare => self.prepares.add(vote),
            Phase::Commit => self.commits.add(vote),
        }
    }

    pub fn vote_of(&self, phase: Phase, sender: ReplicaId) -> Option<Digest>
        ensures { result ≡ voted_digest (row_votes phase self.now) sender.0 }
    {
        match phase {
            Phase::Prepare => self.prepares.vote_of(sender),
            Phase::Commit => self.commits.vote_of(sender),
        }
    }

    /// The logged batch.
    pub fn batch(&self) -> Option<&Arc<HashedBatch>>
        ensures { batch_lent result ≡ self.now.batch }
    {
        self.batch.as_ref()
    }

    /// The digest of the logged batch.
    pub fn digest(&self) -> Option<Digest>
        ensures { result ≡ digest_of self.now }
    {
        match &self.batch {
            Some(batch) => Some(batch.digest()),
            None => None,
        }
    }

    pub fn is_prepared(&self, faults: u8) -> bool
        requires { faults ≤ 3 }
        ensures { (n : ℕ) → IsRow n self.now → result ≡ is_row_prepared faults n self.now }
    {
        match self.digest() {
            Some(digest) => self.prepares.has(2 * faults as usize, &digest),
            None => false,
        }
    }

    pub fn is_committed(&self, faults: u8, me: ReplicaId) -> bool
        requires { faults ≤ 3 }
        ensures { (n : ℕ) → IsRow n self.now → result ≡ is_row_committed faults n me.0 self.now }
    {
        let Some(digest) = self.digest() else {
            return false;
        };
        self.commits.has(2 * faults as usize + 1, &digest)
            && is_for(self.commits.vote_of(me), &digest)
            && self.prepares.has(2 * faults as usize, &digest)
    }
}

// Whether there is a vote, and for this digest.
fn is_for(vote: Option<Digest>, digest: &Digest) -> bool
    ensures { result ≡ has_digest digest.now vote }
{
    match vote {
        Some(given) => *digest == given,
        None => false,
    }
}
