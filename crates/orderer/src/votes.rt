//! The replica's own prepares and commits, for which its log asks.

ghost use Rattle.std.specs.Prelude.{◌≡◌, ◌==◌, true, false, OnOk};
ghost use Rattle.ordering.specs.Keeping.{IsLog};
ghost use Rattle.ordering.specs.Log.{is_in_marks, primary};
ghost use Rattle.orderer.specs.Going.{KeepsParty};
ghost use Rattle.orderer.specs.Multicasting.{AddsVote, Multicasts, MulticastsCommit, MulticastsPrepare, MulticastsVotes, vote_message};
ghost use Rattle.orderer.specs.State.{IsOrderer};

use crate::orderer::Orderer;
use events::{Outputs, Stop};
use frame_endpoint::{commit_message, prepare_message};
use ordering::{Phase, Vote};
use std::alloc::Global;
use terms::{Digest, Number};

impl Orderer {
    /// Tells a proof the invariant of an orderer.
    pub fn keeps(&self)
        ensures log { IsLog self.now.log }
        ensures own { IsOrderer self.now }
    {
        self.log.keeps();
    }

    /// Whether the replica is the primary of its view.
    pub(crate) fn is_primary(&self) -> bool
        ensures { result ≡ (self.now.log.me == primary self.now.log self.now.log.view) }
    {
        self.log.me().0 == self.log.primary(self.log.view()).0
    }

    /// Multicasts the votes that the log asks for, for one number: the prepare of a taken batch, and the commit of a
    /// prepared one.
    pub fn multicast_votes(
        &mut self,
        alloc: Global,
        number: Number,
        outputs: &mut Outputs,
    ) -> Result<(), Stop>
        ensures ok { OnOk result
            (MulticastsVotes number.0 self.old outputs.old.items self.new outputs.new.items) }
        ensures party { KeepsParty self.old self.new }
    {
        self.multicast_due_prepare(alloc, number, outputs)?;
        self.multicast_due_commit(alloc, number, outputs)
    }

    fn multicast_due_prepare(
        &mut self,
        alloc: Global,
        number: Number,
        outputs: &mut Outputs,
    ) -> Result<(), Stop>
        ensures ok { OnOk result
            (MulticastsPrepare number.0 self.old outputs.old.items self.new outputs.new.items) }
        ensures party { KeepsParty self.old self.new }
    {
        self.keeps();
        let Some(digest) = self.log.due_vote(Phase::Prepare, number) else {
            return Ok(());
        };
        self.multicast_vote(alloc, Phase::Prepare, number, digest, outputs)?;
        self.add_vote(Phase::Prepare, number, digest);
        Ok(())
    }

    fn multicast_due_commit(
        &mut self,
        alloc: Global,
        number: Number,
        outputs: &mut Outputs,
    ) -> Result<(), Stop>
        ensures ok { OnOk result
            (MulticastsCommit number.0 self.old outputs.old.items self.new outputs.new.items) }
        ensures party { KeepsParty self.old self.new }
    {
        self.keeps();
        let Some(digest) = self.log.due_vote(Phase::Commit, number) else {
            return Ok(());
        };
        self.note_prepared(number)?;
        self.multicast_vote(alloc, Phase::Commit, number, digest, outputs)?;
        self.add_vote(Phase::Commit, number, digest);
        Ok(())
    }

    // Counts the replica's own vote.
    fn add_vote(&mut self, phase: Phase, number: Number, digest: Digest)
        requires { is_in_marks self.old.log number.0 ≡ true }
        ensures { AddsVote phase number.0 digest self.old self.new }
    {
        let sender = self.log.me();
        self.keeps();
        self.log.add_vote(phase, number, Vote { sender, digest });
    }

    /// Multicasts a prepare, or a commit.
    pub(crate) fn multicast_vote(
        &mut self,
        alloc: Global,
        phase: Phase,
        number: Number,
        digest: Digest,
        outputs: &mut Outputs,
    ) -> Result<(), Stop>
        ensures said { OnOk result (Multicasts self.old (vote_message phase self.old.log.view number.0 digest)
            outputs.old.items outputs.new.items) }
        ensures same { self.new ≡ self.old }
    {
        let view = self.log.view();
        match phase {
            Phase::Prepare => self.multicast(alloc, prepare_message(view, number, digest), outputs),
            Phase::Commit => self.multicast(alloc, commit_message(view, number, digest), outputs),
        }
    }
}
