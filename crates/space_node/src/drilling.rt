//! The threads of a faulty replica. Each takes messages from its inbox until it is told to end.

ghost use Rattle.std.specs.Prelude.{◌≡◌, ◌<◌, IfSome, List, ℕ};
ghost use Rattle.signing.specs.Publics.{knows};
ghost use Rattle.space_node.specs.Drills.{IsStale};

use crate::drill::Drill;
use crate::fault::ThreadFault;
use crate::inbox::InboxMessage;
use crate::parties::{NodeEnd, own_ring};
use crate::shared::Shared;
use authenticator::Ring;
use bumpalo::Bump;
use crossbeam_channel::Receiver;
use events::{Config, Output};
use frame_endpoint::{reply_message, seal_for_one};
use journal::Naming;
use read_only::{Shelf, answer, asks_read, authenticate_read};
use space::Space;
use std::alloc::Global;
use std::sync::{Arc, Wait};
use std::thread;
use std::thread::{JoinHandle, Threads};
use terms::{Number, Party, ReplicaId};
use wire::Reply;

/// A replica that has its own keys, and nothing else.
#[derive(Drop)]
struct Stale {
    me: ReplicaId,
    ring: Ring,
    ghost known: { me.0 < 10 },
}

/// Starts both threads of a faulty replica.
pub(crate) fn start_drill<
    N: Naming + Send + Sync + 'static,
    R: Threads + Wait + Copy + Send + 'static,
>(
    rt: R,
    alloc: Global,
    config: &Config,
    shared: &Arc<Shared<N>, Global>,
    drill: Drill,
    end: NodeEnd,
    threads: &mut Vec<JoinHandle<()>>,
) -> Result<(), ThreadFault> {
    let NodeEnd {
        replica,
        orders,
        reads,
    } = end;
    start_silent(rt, orders, threads)?;
    match drill {
        Drill::Silent => start_silent(rt, reads, threads),
        Drill::Stale => {
            let ring = own_ring(alloc, config, Party::Replica(replica))?;
            let stale = Stale { me: replica, ring };
            start_stale(rt, alloc, shared, stale, reads, threads)
        }
    }
}

fn start_silent<R: Threads + Wait + Copy + Send + 'static>(
    rt: R,
    inbox: Receiver<InboxMessage>,
    threads: &mut Vec<JoinHandle<()>>,
) -> Result<(), ThreadFault> {
    threads.reserve(1)?;
    let taking = thread::spawn(&rt, move || take_all(&rt, &inbox))?;
    threads.push_reserved(taking);
    Ok(())
}

fn start_stale<N: Naming + Send + Sync + 'static, R: Threads + Wait + Copy + Send + 'static>(
    rt: R,
    alloc: Global,
    shared: &Arc<Shared<N>, Global>,
    stale: Stale,
    inbox: Receiver<InboxMessage>,
    threads: &mut Vec<JoinHandle<()>>,
) -> Result<(), ThreadFault> {
    let shared = Arc::try_clone(shared)?;
    threads.reserve(1)?;
    let reading = thread::spawn(
        &rt,
        move || answer_reads(&rt, alloc, &shared, stale, &inbox),
    )?;
    threads.push_reserved(reading);
    Ok(())
}

// Takes all messages, and sends nothing.
fn take_all<R: Wait>(rt: &R, inbox: &Receiver<InboxMessage>) {
    for _ in rt.forever() {
        match inbox.recv(rt) {
            Ok(InboxMessage::Frame(_, _)) | Ok(InboxMessage::Pulse) => {}
            Ok(InboxMessage::End) | Err(_) => break,
        }
    }
}

// Answers the reads that come. A frame that names a faulty sender may come from anywhere, so its position doesn't
// matter.
fn answer_reads<N: Naming, R: Wait>(
    rt: &R,
    alloc: Global,
    shared: &Shared<N>,
    mut stale: Stale,
    inbox: &Receiver<InboxMessage>,
) {
    let mut arena = Bump::new(alloc);
    for _ in rt.forever() {
        let output = match inbox.recv(rt) {
            Ok(InboxMessage::Frame(bytes, _)) => stale.answer(alloc, bytes.as_slice(), &mut arena),
            Ok(InboxMessage::Pulse) => None,
            Ok(InboxMessage::End) | Err(_) => break,
        };
        if let Some(Output::Send(receivers, frame)) = &output {
            shared.send_frame(rt, receivers.as_slice(), frame, 0);
        }
        if arena.reset().is_err() {
            arena = Bump::new(alloc);
        }
    }
}

impl Stale {
    // The output for bytes in which the replica receives a read, if memory suffices.
    fn answer(&mut self, alloc: Global, bytes: &[u8], arena: &mut Bump) -> Option<Output>
        ensures { (publics : List (List ℕ))
            → IfSome result (IsStale (knows self.old.ring publics) self.old.me.0 bytes.now) }
    {
        if !asks_read(bytes) {
            return None;
        }
        let request = authenticate_read(&mut self.ring, self.me, bytes)?;
        let space = Space::new(alloc);
        let shelf = Shelf {
            space: &space,
            number: Number(0),
        };
        let receiver = Party::Client(request.client);
        let Ok(reply) = answer(alloc, &shelf, &request, arena) else {
            return None;
        };
        let Reply {
            client,
            timestamp,
            kind,
            number,
            answer,
        } = reply;
        let message = reply_message(client, timestamp, kind, number, answer);
        seal_for_one(&mut self.ring, alloc, self.me, message, receiver).ok()
    }
}
