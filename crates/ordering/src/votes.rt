//! The votes for one number.

ghost use Rattle.std.specs.Prelude.{◌≡◌, ℕ, ◌<◌, [], count_by, bytes_eq, nat_le};
ghost use Rattle.ordering.specs.Votes.{AreVotes, voters, voted_digest, with_vote};

use smallvec::SmallVec;
use std::alloc::Global;
use std::marker::Model;
use terms::{Digest, ReplicaId};

/// There are at most so many replicas.
pub const MAX_REPLICAS: usize = 10;

/// In which phase a replica votes for a batch: it prepares the batch, and commits it once the batch is prepared.
#[derive(Clone, Copy)]
pub enum Phase {
    Prepare,
    Commit,
}

/// The digest of the batch that a replica votes for, by a prepare or by a commit.
#[derive(Clone, Copy, Drop)]
pub struct Vote {
    pub sender: ReplicaId,
    pub digest: Digest,
}

impl Default for Vote {
    fn default() -> Vote {
        Vote {
            sender: ReplicaId(0),
            digest: [0; 32],
        }
    }
}

/// The votes for one number, in order of arrival, the first of each sender. There is room for one of each replica from
/// the start, so no vote takes memory.
#[derive(Drop)]
pub struct Votes {
    cast: SmallVec<Vote, MAX_REPLICAS>,
}

impl Model for Votes {
    ghost use Rattle.std.specs.Prelude.{◌≡◌, List};
    ghost use Rattle.ordering.specs.declared.votes.Vote.{Vote};
    ghost use Rattle.ordering.specs.Votes.{AreVotes};

    ghost Value = { List Vote };

    ghost view = { λ v. v.cast.items };

    ghost invariant = { λ v. AreVotes 10 v.cast.items × (v.cast.capacity ≡ 10) };
}

impl Votes {
    pub fn new(alloc: Global) -> Votes
        ensures { result ≡ [] }
    {
        Votes {
            cast: SmallVec::new(alloc),
        }
    }

    /// Adds a vote, unless its sender has one.
    #[tactic(auto, using(crate::proofs::Voting::room_for_one, crate::proofs::Voting::pushed_stay))]
    pub fn add(&mut self, vote: Vote)
        requires { vote.sender.0 < MAX_REPLICAS }
        ensures { self.new ≡ with_vote vote self.old }
    {
        if find_vote(self.cast.as_slice(), vote.sender).is_none() {
            self.cast.push_reserved(vote);
        }
    }

    /// The digest that the sender votes for.
    pub fn vote_of(&self, sender: ReplicaId) -> Option<Digest>
        ensures { result ≡ voted_digest self.now sender.0 }
    {
        find_vote(self.cast.as_slice(), sender)
    }

    /// Whether at least so many replicas vote for the digest.
    #[tactic(auto, using(crate::proofs::Counting::voters_count, crate::proofs::Counting::too_few))]
    pub fn has(&self, least: usize, digest: &Digest) -> bool
        ensures { (n : ℕ) → AreVotes n self.now → result ≡ nat_le least (voters n digest.now self.now) }
    {
        let votes = self.cast.as_slice();
        // Mostly there are too few votes for any digest yet.
        votes.len() >= least && count_for(votes, digest) >= least
    }
}

fn find_vote(votes: &[Vote], sender: ReplicaId) -> Option<Digest>
    ensures { result ≡ voted_digest votes.now sender.0 }
{
    for vote in votes {
        if vote.sender == sender {
            return Some(vote.digest);
        }
    }
    None
}

fn count_for(votes: &[Vote], digest: &Digest) -> usize
    ensures { result ≡ count_by (λ vote. bytes_eq digest.now vote.digest) votes.now }
{
    votes.iter().filter(|vote| *digest == vote.digest).count()
}
