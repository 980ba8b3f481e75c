//! The threads of a node. Each takes messages from its inbox until it is told to end.

use crate::gate::Gate;
use crate::inbox::{Inbox, InboxMessage};
use crate::input::{Input, Outgoing};
use crate::shared::{Node, Shared};
use bumpalo::Bump;
use crossbeam_channel::Receiver;
use events::Output;
use journal::{Journal, Naming};
use std::alloc::Global;
use std::sync::{Mutex, Wait};
use terms::{Party, ReplicaId};

/// The ordering thread.
pub(crate) fn serve_orders<N: Naming, G: Gate, R: Wait>(
    rt: &R,
    alloc: Global,
    shared: &Shared<N>,
    gate: &G,
    replica: ReplicaId,
    messages: &Receiver<InboxMessage>,
) {
    let party = Party::Replica(replica);
    let (Some(node), Some(inbox)) = (shared.node(replica), shared.inbox(party)) else {
        return;
    };
    let mut event_no = 0u64;
    for _ in rt.forever() {
        let input = match inbox.take(rt, messages, 1) {
            Some(InboxMessage::Frame(bytes, from)) => Input::Got(bytes, from),
            Some(InboxMessage::Pulse) => Input::Tick,
            Some(InboxMessage::End) | None => break,
        };
        let journal = &shared.journal;
        let given = order_event(rt, alloc, node, journal, gate, replica, event_no, input);
        event_no = event_no.wrapping_add(1);
        if let Some(given) = given {
            note_course(inbox, given.outputs.as_slice(), shared.clients.len() as u64);
            shared.send(rt, &given);
        }
    }
}

// Tells the inbox whether requests are to wake the thread. A replica that sends prepares follows a primary, whose
// pre-prepares bring the requests. One that sends pre-prepares or new views leads, and one that sends a view change
// follows nobody. Each client has one call at a time: of more requests than clients one is sent again.
fn note_course(inbox: &Inbox, outputs: &[Output], clients: u64) {
    for output in outputs {
        if let Output::Send(_, frame) = output {
            match frame.as_slice() {
                [_, _, _, _, 0x43, ..] => inbox.leave_requests(clients),
                [_, _, _, _, 0x42 | 0x46 | 0x47, ..] => inbox.leave_requests(0),
                _ => {}
            }
        }
    }
}

// One event of ordering. The locks are released at its end.
fn order_event<N: Naming, G: Gate, R: Wait>(
    rt: &R,
    alloc: Global,
    node: &Node<N>,
    journal: &Mutex<Journal<N>>,
    gate: &G,
    replica: ReplicaId,
    event_no: u64,
    input: Input,
) -> Option<Outgoing> {
    let mut order = node.order.lock(rt);
    gate.at(u16::from(replica.0), event_no);
    let mut shelf = node.shelf.lock(rt);
    if gate.stops(u16::from(replica.0), event_no) {
        order.stop(&mut shelf);
        return None;
    }
    order.step(rt, alloc, &mut shelf, journal, input)
}

/// The thread that reads, with an arena of its own.
pub(crate) fn serve_reads<N: Naming, R: Wait>(
    rt: &R,
    alloc: Global,
    shared: &Shared<N>,
    replica: ReplicaId,
    messages: &Receiver<InboxMessage>,
) {
    let party = Party::Replica(replica);
    let (Some(node), Some(inbox)) = (shared.node(replica), shared.read_inbox(party)) else {
        return;
    };
    let mut arena = Bump::new(alloc);
    for _ in rt.forever() {
        let given = match inbox.take(rt, messages, 1) {
            Some(InboxMessage::Frame(bytes, from)) => {
                let mut shelf = node.shelf.lock(rt);
                shelf.read(rt, alloc, &mut arena, &shared.journal, bytes, from)
            }
            Some(InboxMessage::Pulse) => None,
            Some(InboxMessage::End) | None => break,
        };
        if let Some(given) = given {
            shared.send(rt, &given);
        }
        if arena.reset().is_err() {
            arena = Bump::new(alloc);
        }
    }
}
