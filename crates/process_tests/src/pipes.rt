//! Four replicas and two clients, whose processes are joined by pipes.
//!
//! What a process writes follows from what it reads. So one thread is enough: whenever something came to a process, it
//! is run anew over all that came to it. What it wrote before has to stand at the front of what it then writes.

use crate::process::{Process, first_record, sent_frame};
use std::alloc::Global;
use terms::{ClientId, Party, ReplicaId};

const REPLICAS: usize = 4;

// Only this replica and the clients lose frames. If two replicas lacked a batch, calls would wait for a change of view,
// and signatures take long.
const LAST_REPLICA: usize = 3;

/// The places of the clients behind the replicas.
pub const CLIENTS: [usize; 2] = [4, 5];

/// What becomes of a frame on its way to a receiver: it comes, it is lost, it comes twice, it comes behind the next
/// one, or a changed one comes before it.
#[derive(Clone, Copy, PartialEq, Eq)]
pub enum Fate {
    Comes,
    Lost,
    Twice,
    Late,
    Forged,
}

/// The fates of the frames of these numbers of every [`CYCLE`]. The others come.
pub type Fates = &'static [(usize, Fate)];

const CYCLE: usize = 31;

/// The processes, and the pipes between them. Each is at the place of its number, the clients behind the replicas.
#[derive(Drop)]
pub struct Pipes {
    alloc: Global,
    processes: Vec<Process>,
    fates: Fates,
    carried: usize,
    now: u64,
}

impl Pipes {
    /// Four replicas and two clients.
    pub fn new(alloc: Global, fates: Fates) -> Option<Pipes> {
        let mut processes = Vec::new(alloc);
        for number in 0..4 {
            let me = Party::Replica(ReplicaId(number));
            processes.push(Process::new(alloc, me)).ok()?;
        }
        for number in 0..2 {
            let me = Party::Client(ClientId { number });
            processes.push(Process::new(alloc, me)).ok()?;
        }
        Some(Pipes {
            alloc,
            processes,
            fates,
            carried: 0,
            now: 0,
        })
    }

    /// The process at this place.
    pub fn process(&self, place: usize) -> Option<&Process> {
        self.processes.get(place)
    }

    /// How many frames were carried to a receiver, or lost.
    pub fn carried(&self) -> usize {
        self.carried
    }

    /// Whether the client at this place answers the line so, within 400 rounds.
    pub fn answers(&mut self, place: usize, line: &str, told: &str) -> Option<bool> {
        let client = self.processes.get_mut(place)?;
        let before = client.told().len();
        client.call(line)?;
        for _ in 0..400 {
            if !self.turn()? {
                self.wait()?;
            }
            if let [line @ .., b'\n'] = self.process(place)?.told().get(before..)? {
                return Some(line == told.as_bytes());
            }
        }
        Some(false)
    }

    // A round: each process takes what came to it, and what it writes is carried. Gives whether there was any.
    fn turn(&mut self) -> Option<bool> {
        let alloc = self.alloc;
        let mut has_moved = false;
        for place in 0..self.processes.len() {
            let fresh = self.processes.get_mut(place)?.go(alloc)?;
            has_moved = has_moved || !fresh.is_empty();
            self.carry(place, fresh.as_slice())?;
        }
        Some(has_moved)
    }

    // Time goes by, until the next timer is over.
    fn wait(&mut self) -> Option<()> {
        let mut next = u64::MAX;
        for process in self.processes.as_slice() {
            next = next.min(process.end().unwrap_or(u64::MAX));
        }
        self.now = next;
        for process in self.processes.as_mut_slice() {
            process.wait_for(next)?;
        }
        Some(())
    }

    // Carries what a process wrote.
    fn carry(&mut self, sender: usize, text: &[u8]) -> Option<()> {
        let mut left = text;
        for _ in 0..text.len() {
            let Some((body, rest)) = first_record(left) else {
                return Some(());
            };
            self.take(sender, body)?;
            left = rest;
        }
        Some(())
    }

    fn take(&mut self, sender: usize, body: &[u8]) -> Option<()> {
        if let Some((receivers, frame)) = sent_frame(body) {
            return self.send(receivers, frame);
        }
        let [2, a, b, c, d, e, f, g, h, i, j, k, l] = body else {
            return None;
        };
        let milliseconds = u32::from_be_bytes([*i, *j, *k, *l]);
        let end = self.now.saturating_add(u64::from(milliseconds));
        let number = u64::from_be_bytes([*a, *b, *c, *d, *e, *f, *g, *h]);
        self.processes.get_mut(sender)?.begin_timer(number, end);
        Some(())
    }

    fn send(&mut self, receivers: &[u8], frame: &[u8]) -> Option<()> {
        for number in receivers.chunks(2) {
            let place = match number {
                [0, replica] => usize::from(*replica),
                [1, client] => usize::from(*client) + REPLICAS,
                _ => return None,
            };
            self.deliver(place, frame)?;
        }
        Some(())
    }

    fn deliver(&mut self, place: usize, frame: &[u8]) -> Option<()> {
        let fate = self.fate();
        self.carried = self.carried.wrapping_add(1);
        let receiver = self.processes.get_mut(place)?;
        match fate {
            Fate::Comes => receiver.come(frame),
            Fate::Lost if place < LAST_REPLICA => receiver.come_late(frame),
            Fate::Lost => Some(()),
            Fate::Twice => {
                receiver.come(frame)?;
                receiver.come(frame)
            }
            Fate::Late => receiver.come_late(frame),
            Fate::Forged => {
                receiver.come(changed(self.alloc, frame)?.as_slice())?;
                receiver.come(frame)
            }
        }
    }

    // That of the next frame.
    fn fate(&self) -> Fate {
        let number = self.carried % CYCLE;
        match self.fates.iter().find(|fate| fate.0 == number) {
            Some((_, fate)) => *fate,
            None => Fate::Comes,
        }
    }
}

// A frame with another byte in a field of its body, under the codes of the true one.
fn changed(alloc: Global, frame: &[u8]) -> Option<Vec<u8>> {
    let mut bytes = frame.to_vec(alloc).ok()?;
    let byte = bytes.get_mut(9)?;
    *byte ^= 1;
    Some(bytes)
}
