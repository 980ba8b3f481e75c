//! The parties of a new cluster, with their states.

ghost use Rattle.std.specs.Prelude.{◌≡◌, ◌++◌, ◌<◌, [], ◌∷◌, All, IfOk, OnOk, map};
ghost use Rattle.terms.specs.Parties.{client_party, party_number};
ghost use Rattle.protocol.specs.System.Configuration.{IsConfiguration, members};
ghost use Rattle.space_node.specs.Places.{IsFirstShareOf, clients_among, clients_of, all_but_first, left_after, replicas_among};
ghost use Rattle.space_node.specs.PartyStates.{IsNew};

use crate::handle_state::HandleState;
use crate::inbox::{Inbox, InboxMessage};
use crate::node_desk::NodeDesk;
use crate::node_order::NodeOrder;
use crate::shared::{Inboxes, Node, Shared};
use authenticator::{Ring, deal, signing_seed};
use client_cert::Client;
use crossbeam_channel::{Receiver, unbounded};
use events::Config;
use journal::{Journal, Naming, Opened, OrderShare, Share};
use replica::{Numbers, Replica};
use signing::{PublicKeys, Signer};
use std::alloc::Global;
use std::sync::Mutex;
use terms::{ClientId, NoMemory, Party, ReplicaId};

/// The inboxes that a replica's threads take from.
#[derive(Drop)]
pub(crate) struct NodeEnd {
    pub(crate) replica: ReplicaId,
    pub(crate) orders: Receiver<InboxMessage>,
    pub(crate) reads: Receiver<InboxMessage>,
    ghost known: { replica.0 < 10 },
}

/// The parts of a client's handle that no other thread has.
#[derive(Drop)]
pub(crate) struct ClientEnd<N: Naming> {
    pub(crate) state: HandleState<N>,
    pub(crate) messages: Receiver<InboxMessage>,
    ghost is_new: { IsNew state },
}

/// The correct parties of a new cluster.
#[derive(Drop)]
struct Parties<N: Naming> {
    nodes: Vec<Node<N>>,
    clients: Vec<Inbox>,
    client_ends: Vec<ClientEnd<N>>,
}

/// The state that the threads of a new cluster share, and the state that each has for itself.
pub(crate) fn new_shared<N: Naming>(
    alloc: Global,
    opened: Opened,
    config: &Config,
    limit: u32,
) -> Result<(Shared<N>, Vec<NodeEnd>, Vec<ClientEnd<N>>), NoMemory>
    requires config { config.now ≡ N.config }
    requires book { opened ≡ N.book }
    requires valid { IsConfiguration config.now }
    requires clients { config.now.faulty_clients ≡ [] }
    ensures { IfOk result (λ r. map (λ e. e.state.party) r.2.items ≡ clients_of config.now) }
{
    let (journal, shares, orders) = Journal::<N>::tied(alloc, opened, config, limit)?;
    let (replicas, node_ends) = open_inboxes(alloc, config)?;
    let Parties {
        nodes,
        clients,
        client_ends,
    } = new_parties(alloc, config, shares, orders)?;
    let shared = Shared {
        journal: Mutex::new(journal),
        nodes,
        replicas,
        clients,
    };
    Ok((shared, node_ends, client_ends))
}

// The inboxes of all replicas, by their numbers.
fn open_inboxes(alloc: Global, config: &Config) -> Result<(Vec<Inboxes>, Vec<NodeEnd>), NoMemory> {
    // Tells a proof that the configuration is valid.
    let _faults = config.faults();
    let mut inboxes = Vec::new(alloc);
    let mut ends = Vec::new(alloc);
    for number in 0..config.replicas() {
        let (to_orders, orders) = unbounded(alloc)?;
        let (to_reads, reads) = unbounded(alloc)?;
        inboxes.push(Inboxes {
            orders: Inbox::new(to_orders),
            reads: Inbox::new(to_reads),
        })?;
        ends.push(NodeEnd {
            replica: ReplicaId(number),
            orders,
            reads,
        })?;
    }
    Ok((inboxes, ends))
}

// Makes the state of each correct party.
fn new_parties<N: Naming>(
    alloc: Global,
    config: &Config,
    shares: Vec<Share<N>>,
    mut orders: Vec<OrderShare<N>>,
) -> Result<Parties<N>, NoMemory>
    requires config { config.now ≡ N.config }
    requires new { All (λ s. s.history ≡ []) shares.items }
    requires new_orders { All (λ o. o.history ≡ []) orders.items }
    requires orders_are { map (λ o. o.party) orders.items ≡ replicas_among (map (λ s. s.party) shares.items) }
    ensures { IfOk result (λ parties. map (λ e. e.state.party) parties.client_ends.items
        ≡ clients_among (map (λ s. s.party) shares.items)) }
{
    let publics = PublicKeys::new(alloc, config.seed(), config.faults())?;
    let mut parties = Parties {
        nodes: Vec::new(alloc),
        clients: Vec::new(alloc),
        client_ends: Vec::new(alloc),
    };
    for share in shares {
        add_party(alloc, config, &publics, share, &mut orders, &mut parties)?;
    }
    Ok(parties)
}

fn add_party<N: Naming>(
    alloc: Global,
    config: &Config,
    publics: &PublicKeys,
    share: Share<N>,
    orders: &mut Vec<OrderShare<N>>,
    parties: &mut Parties<N>,
) -> Result<(), NoMemory>
    requires config { config.now ≡ N.config }
    requires keys { publics.now ≡ config.now.publics }
    requires new { share.history ≡ [] }
    requires new_orders { All (λ o. o.history ≡ []) orders.old.items }
    requires first { IsFirstShareOf share.party orders.old.items }
    ensures new_orders { All (λ o. o.history ≡ []) orders.new.items }
    ensures left { OnOk result (orders.new.items ≡ left_after share.party orders.old.items) }
    ensures clients { IfOk result (λ _. map (λ e. e.state.party) parties.new.client_ends.items
        ≡ map (λ e. e.state.party) parties.old.client_ends.items ++ clients_among (share.party ∷ [])) }
{
    match share.party() {
        Party::Replica(replica) => {
            let order = take_order(orders, replica);
            let node = new_node(alloc, config, publics, replica, share, order)?;
            parties.nodes.push(node)?;
            Ok(())
        }
        Party::Client(client) => {
            let (inbox, end) = new_client(alloc, config, publics, client, share)?;
            parties.clients.push(inbox)?;
            parties.client_ends.push(end)?;
            Ok(())
        }
    }
}

// The first share of ordering, which is this replica's.
fn take_order<N: Naming>(orders: &mut Vec<OrderShare<N>>, replica: ReplicaId) -> OrderShare<N>
    requires new { All (λ o. o.history ≡ []) orders.old.items }
    requires first { IsFirstShareOf replica.0 orders.old.items }
    ensures party { result.party ≡ replica.0 }
    ensures new { result.history ≡ [] }
    ensures left { orders.new.items ≡ all_but_first orders.old.items }
    ensures others { All (λ o. o.history ≡ []) orders.new.items }
{
    let order = orders.remove(0);
    order
}

/// The keys of one party, and of no other.
pub(crate) fn own_ring(alloc: Global, config: &Config, me: Party) -> Result<Ring, NoMemory>
    ensures { IfOk result (λ ring. ring ≡ record (members config.now (party_number me)) { publics = [] }) }
{
    let (faults, clients) = (config.faults(), config.clients());
    let keys = deal(alloc, config.seed(), faults, clients, me)?;
    Ring::of_party(alloc, faults, clients, keys)
}

fn new_node<N: Naming>(
    alloc: Global,
    config: &Config,
    publics: &PublicKeys,
    replica: ReplicaId,
    share: Share<N>,
    order: OrderShare<N>,
) -> Result<Node<N>, NoMemory>
    requires config { config.now ≡ N.config }
    requires keys { publics.now ≡ config.now.publics }
    requires party { share.party ≡ replica.0 }
    requires new { share.history ≡ [] }
    requires order_party { order.party ≡ replica.0 }
    requires new_order { order.history ≡ [] }
{
    // Tells a proof that it is a party of the configuration.
    let _party = order.party();
    let numbers = Numbers {
        faults: config.faults(),
        clients: config.clients(),
        period: config.period(),
    };
    let me = Party::Replica(replica);
    let ring = own_ring(alloc, config, me)?;
    let signer = Signer::from_seed(&signing_seed(config.seed(), me));
    let keys = publics.share()?;
    let whole = Replica::new(alloc, numbers, replica, ring, signer, keys)?;
    let (orderer, desk) = whole.split();
    Ok(Node {
        replica,
        order: Mutex::new(NodeOrder::new(orderer, order)),
        shelf: Mutex::new(NodeDesk::new(desk, share)),
    })
}

fn new_client<N: Naming>(
    alloc: Global,
    config: &Config,
    publics: &PublicKeys,
    id: ClientId,
    share: Share<N>,
) -> Result<(Inbox, ClientEnd<N>), NoMemory>
    requires config { config.now ≡ N.config }
    requires keys { publics.now ≡ config.now.publics }
    requires party { share.party ≡ client_party id.number }
    requires new { share.history ≡ [] }
    ensures { IfOk result (λ r. r.1.state.party ≡ share.party) }
{
    let ring = own_ring(alloc, config, Party::Client(id))?;
    let keys = publics.share()?;
    let client = Client::new(id, config.faults(), ring, keys);
    let (sender, messages) = unbounded(alloc)?;
    let state = HandleState::new(id, client, share);
    Ok((Inbox::new(sender), ClientEnd { state, messages }))
}
