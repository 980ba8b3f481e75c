//! A correct replica's share at the end of a cluster.

ghost use Rattle.std.specs.Prelude.{◌≡◌, true, reverse};
ghost use Rattle.terms.specs.Parties.{party_number};
ghost use Rattle.protocol.specs.System.Configuration.{is_correct};
ghost use Rattle.protocol.specs.Replica.Owed.{IsPromptReplica};
ghost use Rattle.space_node.specs.PartyStates.{absent, replica_left_by};

use crate::node_desk::NodeDesk;
use crate::node_order::NodeOrder;
use events::Entry;
use journal::{Naming, Share};
use std::alloc::Global;
use std::marker::Model;
use terms::{Party, ReplicaId};

/// A correct replica's share, and whether the replica had stopped when its threads ended. Both come from its node.
#[derive(Drop)]
pub struct ReplicaShare<N: Naming> {
    share: Share<N>,
    stopped: bool,
}

impl<N: Naming> Model for ReplicaShare<N> {
    ghost use Rattle.space_node.specs.Codes.{party_state_code};
    ghost use Rattle.space_node.specs.PartyStates.{PartyState};

    ghost Value = { PartyState };

    ghost coded = { party_state_code };

    ghost view = { λ s. record {
      party = s.share.party;
      history = s.share.history;
      stopped = s.stopped;
    } };
}

impl<N: Naming> ReplicaShare<N> {
    /// The share of the replica with these states. The replica has stopped if one of them has. Its desk stops then.
    pub(crate) fn take(
        alloc: Global,
        order: &NodeOrder<N>,
        shelf: &mut NodeDesk<N>,
    ) -> ReplicaShare<N>
        ensures left { result ≡ replica_left_by order.now shelf.old }
        ensures prompt { IsPromptReplica N.config result.party result.history }
    {
        let stopped = order.is_stopped() || shelf.is_stopped();
        let share = shelf.release_share(alloc);
        ReplicaShare { share, stopped }
    }

    /// The share of a replica without a node, which counts as stopped.
    pub(crate) fn none(alloc: Global, replica: ReplicaId) -> ReplicaShare<N>
        requires correct { is_correct N.config replica.0 ≡ true }
        ensures left { result ≡ absent replica.0 }
        ensures prompt { IsPromptReplica N.config result.party result.history }
    {
        ReplicaShare {
            share: Share::empty(alloc, Party::Replica(replica)),
            stopped: true,
        }
    }

    /// The party of the share.
    pub fn party(&self) -> Party
        ensures { party_number result ≡ self.now.party }
    {
        self.share.party()
    }

    /// The history, the oldest entry first.
    pub fn history(&self) -> &[Entry]
        ensures { reverse result.now ≡ self.now.history }
    {
        self.share.history()
    }

    /// Whether the replica had stopped.
    pub fn is_stopped(&self) -> bool
        ensures { result ≡ self.now.stopped }
    {
        self.stopped
    }

    /// The share itself.
    pub fn share(&self) -> &Share<N>
        ensures party { result.now.party ≡ self.now.party }
        ensures history { result.now.history ≡ self.now.history }
    {
        &self.share
    }
}
