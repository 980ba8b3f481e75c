//! The state that the threads of a cluster share.

use crate::inbox::Inbox;
use crate::input::Outgoing;
use crate::node_desk::NodeDesk;
use crate::node_order::NodeOrder;
use events::{Output, SharedBytes};
use journal::{Journal, Naming};
use read_only::asks_read;
use std::sync::{Mutex, Wait};
use terms::{Party, ReplicaId};

/// A correct replica, whose order lock is taken before its shelf lock.
#[derive(Drop)]
pub(crate) struct Node<N: Naming> {
    pub(crate) replica: ReplicaId,
    pub(crate) order: Mutex<NodeOrder<N>>,
    pub(crate) shelf: Mutex<NodeDesk<N>>,
}

/// The inboxes of a replica, whether it is correct or faulty.
#[derive(Drop)]
pub(crate) struct Inboxes {
    /// The ordering thread's.
    pub(crate) orders: Inbox,
    /// The read thread's.
    pub(crate) reads: Inbox,
}

/// The journal, whose lock is taken last, the correct replicas, and the inboxes of all replicas and of the clients, by
/// their numbers.
#[derive(Drop)]
pub(crate) struct Shared<N: Naming> {
    pub(crate) journal: Mutex<Journal<N>>,
    pub(crate) nodes: Vec<Node<N>>,
    pub(crate) replicas: Vec<Inboxes>,
    pub(crate) clients: Vec<Inbox>,
}

impl<N: Naming> Shared<N> {
    /// The correct replica of this number.
    pub(crate) fn node(&self, replica: ReplicaId) -> Option<&Node<N>> {
        for node in &self.nodes {
            if node.replica == replica {
                return Some(node);
            }
        }
        None
    }

    /// Tells the party that time went by. Does nothing if no party has that number.
    pub(crate) fn pulse<R: Wait>(&self, rt: &R, party: Party) {
        if let Some(inbox) = self.inbox(party) {
            inbox.pulse(rt);
        }
    }

    /// How many replicas have stopped by now. Whatever stops an orderer stops its desk too.
    pub(crate) fn count_stopped<R: Wait>(&self, rt: &R) -> u8 {
        let mut count = 0u8;
        for node in &self.nodes {
            if node.shelf.lock(rt).is_stopped() {
                count = count.saturating_add(1);
            }
        }
        count
    }

    /// Puts each frame into the inbox of each of its receivers, who share its bytes. If there is no memory for a
    /// message, it is lost.
    pub(crate) fn send<R: Wait>(&self, rt: &R, given: &Outgoing) {
        let mut at = given.first;
        for output in &given.outputs {
            at = at.saturating_add(1);
            if let Output::Send(receivers, frame) = output {
                self.send_frame(rt, receivers.as_slice(), frame, at);
            }
        }
    }

    /// The same for one frame, which was sent at this position.
    pub(crate) fn send_frame<R: Wait>(
        &self,
        rt: &R,
        receivers: &[Party],
        frame: &SharedBytes,
        at: u64,
    ) {
        let is_read = asks_read(frame.as_slice());
        for receiver in receivers {
            let inbox = if is_read {
                self.read_inbox(*receiver)
            } else {
                self.inbox(*receiver)
            };
            if let (Some(inbox), Ok(bytes)) = (inbox, frame.share()) {
                inbox.send(rt, bytes, at);
            }
        }
    }

    /// How many replicas are a quorum, 2f + 1 of 3f + 1.
    pub(crate) fn quorum(&self) -> u32 {
        let replicas = self.replicas.len();
        u32::try_from(replicas - replicas / 3).unwrap_or(1)
    }

    /// The inbox of a party, of a replica that of its ordering thread.
    pub(crate) fn inbox(&self, party: Party) -> Option<&Inbox> {
        match party {
            Party::Replica(replica) => match self.replicas.get(usize::from(replica.0)) {
                Some(inboxes) => Some(&inboxes.orders),
                None => None,
            },
            Party::Client(client) => self.clients.get(usize::from(client.number)),
        }
    }

    /// The inbox from which the party takes bytes with the marks of a read.
    pub(crate) fn read_inbox(&self, party: Party) -> Option<&Inbox> {
        match party {
            Party::Replica(replica) => match self.replicas.get(usize::from(replica.0)) {
                Some(inboxes) => Some(&inboxes.reads),
                None => None,
            },
            Party::Client(client) => self.clients.get(usize::from(client.number)),
        }
    }

    /// Ends all threads that take from inboxes.
    pub(crate) fn end<R: Wait>(&self, rt: &R) {
        for inboxes in &self.replicas {
            inboxes.orders.end(rt);
            inboxes.reads.end(rt);
        }
        for inbox in &self.clients {
            inbox.end(rt);
        }
    }
}
