//! A process that is run over all that came to it so far.

ghost use Rattle.std.specs.Prelude.{◌≤◌};

use crate::readers::Pieces;
use crate::writers::Sink;
use authenticator::{Ring, deal, signing_seed};
use client_cert::Client;
use client_process::{ConverseFault, converse};
use replica::{Numbers, Replica};
use replica_process::serve;
use signing::{PublicKeys, Signer};
use std::alloc::Global;
use terms::{ClientId, NoMemory, Party, ReplicaId};

static SEED: [u8; 32] = [7; 32];

/// A process: its party, its script if that is a client, what it read, and what it wrote.
#[derive(Drop)]
pub struct Process {
    me: Party,
    script: Vec<u8>,
    read: Vec<u8>,
    sent: Vec<u8>,
    told: Vec<u8>,
    late: Vec<u8>,
    timer: Option<(u64, u64)>,
    is_due: bool,
}

impl Process {
    /// That of this party. It has read nothing.
    pub fn new(alloc: Global, me: Party) -> Process {
        Process {
            me,
            script: Vec::new(alloc),
            read: Vec::new(alloc),
            sent: Vec::new(alloc),
            told: Vec::new(alloc),
            late: Vec::new(alloc),
            timer: None,
            is_due: false,
        }
    }

    /// All result lines that it wrote.
    pub fn told(&self) -> &[u8] {
        self.told.as_slice()
    }

    // ---- what comes to it

    /// A line of its script comes.
    pub fn call(&mut self, line: &str) -> Option<()> {
        self.is_due = true;
        self.script.extend_from_slice(line.as_bytes()).ok()?;
        self.script.push(b'\n').ok()
    }

    fn tell(&mut self, record: &[u8]) -> Option<()> {
        self.is_due = true;
        self.read.extend_from_slice(record).ok()
    }

    /// A frame comes, and behind it those that were late.
    pub fn come(&mut self, frame: &[u8]) -> Option<()> {
        put_came(frame, &mut self.read)?;
        self.take_late()
    }

    /// A frame comes behind the next one.
    pub fn come_late(&mut self, frame: &[u8]) -> Option<()> {
        put_came(frame, &mut self.late)
    }

    fn take_late(&mut self) -> Option<()> {
        self.is_due = true;
        self.read.extend_from_slice(self.late.as_slice()).ok()?;
        self.late.clear();
        Some(())
    }

    // ---- its timer

    /// A timer begins, in place of the last one.
    pub fn begin_timer(&mut self, number: u64, end: u64) {
        self.timer = Some((number, end));
    }

    /// When its timer is over, if one runs.
    pub fn end(&self) -> Option<u64> {
        match self.timer {
            Some((_, end)) => Some(end),
            None => None,
        }
    }

    /// Nothing else comes before this moment: so what is late comes, and its timer is over, if that ends now.
    pub fn wait_for(&mut self, now: u64) -> Option<()> {
        if !self.late.is_empty() {
            self.take_late()?;
        }
        match self.timer {
            Some((number, end)) if end == now => self.end_timer(number),
            _ => Some(()),
        }
    }

    fn end_timer(&mut self, number: u64) -> Option<()> {
        self.timer = None;
        self.tell(&[0, 0, 0, 9, 2])?;
        self.tell(&number.to_be_bytes())
    }

    // ---- what it does

    // Runs it over all that came, so many bytes at a time. Gives whether it ended with its input.
    fn run(&self, alloc: Global, step: usize, sent: &mut Sink, told: &mut Sink) -> bool {
        let records = Pieces {
            left: self.read.as_slice(),
            step,
        };
        match self.me {
            Party::Replica(me) => serves(alloc, me, records, sent),
            Party::Client(me) => {
                converses(alloc, me, self.script.as_slice(), records, sent, told)
            }
        }
    }

    /// If something came, runs it over all that came. Gives what it wrote for the first time. `None` if it wrote other
    /// bytes than before, or ended otherwise.
    pub fn go(&mut self, alloc: Global) -> Option<Vec<u8>> {
        if !self.is_due {
            return Some(Vec::new(alloc));
        }
        self.is_due = false;
        let mut sent = sink(alloc, usize::MAX);
        let mut told = sink(alloc, usize::MAX);
        if !self.run(alloc, usize::MAX, &mut sent, &mut told) {
            return None;
        }
        beyond(self.told(), told.taken.as_slice())?;
        let fresh = beyond(self.sent.as_slice(), sent.taken.as_slice())?.to_vec(alloc);
        self.sent = sent.taken;
        self.told = told.taken;
        fresh.ok()
    }

    /// Whether it writes the same again, if so many bytes are read and written at a time.
    pub fn is_replayed(&self, alloc: Global, read: usize, written: usize) -> bool {
        let mut sent = sink(alloc, written);
        let mut told = sink(alloc, written);
        self.run(alloc, read, &mut sent, &mut told)
            && sent.taken.as_slice() == self.sent.as_slice()
            && told.taken.as_slice() == self.told()
    }
}

fn sink(alloc: Global, step: usize) -> Sink {
    Sink {
        taken: Vec::new(alloc),
        step,
        most: usize::MAX,
    }
}

// Public keys and leaves are derived only where a frame is signed, which takes long.
fn new_replica(alloc: Global, me: ReplicaId) -> Result<Replica, NoMemory>
    requires { me.0 ≤ 3 }
{
    let numbers = Numbers {
        faults: 1,
        clients: 2,
        period: 16,
    };
    let party = Party::Replica(me);
    let ring = Ring::of_party(alloc, 1, 2, deal(alloc, &SEED, 1, 2, party)?)?;
    let signer = Signer::from_seed(&signing_seed(&SEED, party));
    let publics = PublicKeys::new(alloc, &SEED, 1)?;
    Replica::new(alloc, numbers, me, ring, signer, publics)
}

fn serves(alloc: Global, me: ReplicaId, records: Pieces<'_>, sent: &mut Sink) -> bool {
    if me.0 > 3 {
        return false;
    }
    match new_replica(alloc, me) {
        Ok(replica) => serve(alloc, replica, 2, records, sent).is_ok(),
        Err(NoMemory) => false,
    }
}

fn new_client(alloc: Global, me: ClientId) -> Result<Client, NoMemory> {
    let keys = deal(alloc, &SEED, 1, 2, Party::Client(me))?;
    let ring = Ring::of_party(alloc, 1, 2, keys)?;
    let publics = PublicKeys::new(alloc, &SEED, 1)?;
    Ok(Client::new(me, 1, ring, publics))
}

// A client whose records end in a call is to be run again.
fn converses(
    alloc: Global,
    me: ClientId,
    script: &[u8],
    records: Pieces<'_>,
    sent: &mut Sink,
    told: &mut Sink,
) -> bool {
    match new_client(alloc, me) {
        Ok(client) => {
            let ended = converse(alloc, client, script, records, sent, told);
            matches!(ended, Ok(()) | Err(ConverseFault::Unanswered))
        }
        Err(NoMemory) => false,
    }
}

fn put_came(frame: &[u8], out: &mut Vec<u8>) -> Option<()> {
    let len = u32::try_from(frame.len()).ok()?.checked_add(1)?;
    out.extend_from_slice(&len.to_be_bytes()).ok()?;
    out.push(1).ok()?;
    out.extend_from_slice(frame).ok()
}

// What stands behind this front.
fn beyond<'a>(front: &[u8], whole: &'a [u8]) -> Option<&'a [u8]> {
    if !whole.starts_with(front) {
        return None;
    }
    whole.get(front.len()..)
}

/// The kind and the content of the first record, and what stands behind it.
pub fn first_record(text: &[u8]) -> Option<(&[u8], &[u8])> {
    let [a, b, c, d, rest @ ..] = text else {
        return None;
    };
    let len = u32::from_be_bytes([*a, *b, *c, *d]) as usize;
    if len > rest.len() {
        return None;
    }
    Some(rest.split_at(len))
}

/// The receivers of a frame that is to go, and the frame.
pub fn sent_frame(body: &[u8]) -> Option<(&[u8], &[u8])> {
    let [1, count, rest @ ..] = body else {
        return None;
    };
    let len = 2 * usize::from(*count);
    if len > rest.len() {
        return None;
    }
    Some(rest.split_at(len))
}
