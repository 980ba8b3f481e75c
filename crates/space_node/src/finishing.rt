//! The end of a cluster: its journal is compared with the histories that its parties kept.

ghost use Rattle.std.specs.Prelude.{◌≡◌, ◌++◌, true, map, reverse, IfOk, IfErr, OnOk, MatchOption};
ghost use Rattle.terms.specs.Parties.{party_number};
ghost use Rattle.journal.specs.Histories.{correct_replicas};
ghost use Rattle.protocol.specs.System.Configuration.{IsConfiguration, is_correct};
ghost use Rattle.protocol.specs.Replica.Owed.{IsPromptReplica};
ghost use Rattle.space_node.specs.Runs.{AreNamed, ClientsArePrompt, HasHistories, IsFinished, LacksHistory};
ghost use Rattle.space_node.specs.Runs.{ReplicasArePrompt, Serves, TellsFault, stopped_of};

use crate::handle::ClientHandle;
use crate::replica_share::ReplicaShare;
use crate::run::{FinishFault, Run};
use crate::shared::Shared;
use journal::{Journal, Naming, carried_is_unforged};
use protocol::points_are_linear;
use std::alloc::Global;
use std::sync::Wait;
use terms::{NoMemory, Party, ReplicaId};

/// The shares of the correct replicas, whose desks stop then.
pub(crate) fn shares_of<N: Naming, R: Wait>(
    rt: &R,
    alloc: Global,
    shared: &Shared<N>,
    replicas: &[ReplicaId],
) -> Result<Vec<ReplicaShare<N>>, NoMemory>
    requires serves { Serves N.config replicas.now }
    ensures valid { IsConfiguration N.config }
    ensures parties { IfOk result
        (λ shares. map (λ s. s.party) shares.items ≡ correct_replicas N.config) }
    ensures prompt { IfOk result
        (λ shares. ReplicasArePrompt N.config shares.items) }
{
    let mut shares = Vec::new(alloc);
    for replica in replicas {
        let share = share_of(rt, alloc, shared, *replica);
        shares.push(share)?;
    }
    Ok(shares)
}

// The share in the replica's node.
fn share_of<N: Naming, R: Wait>(
    rt: &R,
    alloc: Global,
    shared: &Shared<N>,
    replica: ReplicaId,
) -> ReplicaShare<N>
    requires correct { is_correct N.config replica.0 ≡ true }
    ensures party { result.party ≡ replica.0 }
    ensures prompt { IsPromptReplica N.config result.party result.history }
{
    if let Some(node) = shared.node(replica) {
        let order = node.order.lock(rt);
        let mut shelf = node.shelf.lock(rt);
        let share = ReplicaShare::take(alloc, &order, &mut shelf);
        if share.party().number() == u16::from(replica.0) {
            return share;
        }
    }
    ReplicaShare::none(alloc, replica)
}

/// Compares the journal with the shares, one of each correct replica, and with the clients, and takes its trace.
pub(crate) fn finish_run<N: Naming>(
    alloc: Global,
    journal: &mut Journal<N>,
    shares: Vec<ReplicaShare<N>>,
    clients: &[ClientHandle<N>],
) -> Result<Run<N>, FinishFault<N>>
    requires valid { IsConfiguration N.config }
    requires replicas_are { map (λ s. s.party) shares.items ≡ correct_replicas N.config }
    requires prompt { ReplicasArePrompt N.config shares.items }
    ensures finished { IfOk result
        (λ run. IsFinished N.config (reverse run.trace.items) run.shares.items
        (map party_number run.stopped.items) clients.now) }
    ensures fault { IfErr result (λ fault. TellsFault fault clients.now) }
{
    let share_off = first_share_off(journal, shares.as_slice());
    let client_off = first_client_off(journal, clients);
    let Ok(stopped) = name_stopped(alloc, shares.as_slice(), clients) else {
        return Err(FinishFault::NoMemory);
    };
    carried_is_unforged();
    points_are_linear();
    let run = Run {
        trace: journal.take(alloc),
        shares,
        stopped,
    };
    match (share_off, client_off) {
        (Some(party), _) => Err(FinishFault::NotInJournal(run, party)),
        (None, Some(party)) => Err(FinishFault::NotInJournal(run, party)),
        (None, None) => Ok(run),
    }
}

// The first party whose history in the journal differs from its share.
fn first_share_off<N: Naming>(journal: &Journal<N>, shares: &[ReplicaShare<N>]) -> Option<Party>
    ensures { MatchOption result (HasHistories journal.now.trace shares.now)
        (λ party. LacksHistory journal.now.trace shares.now (party_number party)) }
{
    for share in shares {
        if !journal.agrees(share.share()) {
            return Some(share.party());
        }
    }
    None
}

// The first client whose history in the journal differs from its handle.
fn first_client_off<N: Naming>(journal: &Journal<N>, clients: &[ClientHandle<N>]) -> Option<Party>
    ensures { MatchOption result (HasHistories journal.now.trace clients.now)
        (λ party. LacksHistory journal.now.trace clients.now (party_number party)) }
{
    for client in clients {
        if !journal.agrees(client.share()) {
            return Some(client.party());
        }
    }
    None
}

// The parties that have stopped: the replicas, and then the clients. Each client does all that it owes, up to the end
// of its history.
fn name_stopped<N: Naming>(
    alloc: Global,
    shares: &[ReplicaShare<N>],
    clients: &[ClientHandle<N>],
) -> Result<Vec<Party>, NoMemory>
    ensures named { IfOk result
        (λ stopped. AreNamed (map party_number stopped.items) shares.now clients.now) }
    ensures prompt { OnOk result (ClientsArePrompt N.config clients.now) }
{
    let mut stopped = Vec::new(alloc);
    add_replicas(shares, &mut stopped)?;
    add_clients(clients, &mut stopped)?;
    Ok(stopped)
}

// Adds the replicas that have stopped.
fn add_replicas<N: Naming>(
    shares: &[ReplicaShare<N>],
    stopped: &mut Vec<Party>,
) -> Result<(), NoMemory>
    ensures { OnOk result
        (map party_number stopped.new.items ≡ map party_number stopped.old.items ++ stopped_of shares.now) }
{
    for share in shares {
        if share.is_stopped() {
            stopped.push(share.party())?;
        }
    }
    Ok(())
}

// Adds the clients that have stopped.
fn add_clients<N: Naming>(
    clients: &[ClientHandle<N>],
    stopped: &mut Vec<Party>,
) -> Result<(), NoMemory>
    ensures prompt { OnOk result (ClientsArePrompt N.config clients.now) }
    ensures named { OnOk result
        (map party_number stopped.new.items ≡ map party_number stopped.old.items ++ stopped_of clients.now) }
{
    for client in clients {
        if client.is_stopped() {
            stopped.push(client.party())?;
        }
    }
    Ok(())
}
