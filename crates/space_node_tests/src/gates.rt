//! A gate that counts the events of nodes, holds nodes and stops one, and the flags that it shares with a test.

use space_node::Gate;
use std::alloc::{AllocError, Global};
use std::rt::Clock;
use std::sync::Arc;
use std::sync::atomic::{AtomicU64, Ordering};
use std::thread;
use std::time::Duration;

// How often a flag is looked at, with a pause of a millisecond each time.
const TURNS: u32 = 10_000;

/// The flags that a gate and its test share. Those in fours are by the number of the node.
#[derive(Drop)]
pub struct Flags {
    // Whether it is to be held.
    closed: [AtomicU64; 4],
    // Whether it was seen inside.
    inside: [AtomicU64; 4],
    // How often it was seen at the gate.
    seen: [AtomicU64; 4],
    opened: AtomicU64,
    gave_up: AtomicU64,
    // Whether an event had another number than that of the events before it.
    misnumbered: AtomicU64,
}

impl Flags {
    /// A gate that is open, before the first event.
    pub fn new(alloc: Global) -> Result<Arc<Flags, Global>, AllocError> {
        let flags = Flags {
            closed: four(),
            inside: four(),
            seen: four(),
            opened: AtomicU64::new(0),
            gave_up: AtomicU64::new(0),
            misnumbered: AtomicU64::new(0),
        };
        Ok(Arc::new(alloc, flags)?)
    }

    /// The node's next event is held.
    pub fn close(&self, node: usize) {
        if let Some(closed) = self.closed.get(node) {
            closed.store(1, Ordering::SeqCst);
        }
    }

    /// All that are held go on.
    pub fn open(&self) {
        self.opened.store(1, Ordering::SeqCst);
    }

    /// Waits until the node is seen inside, for at most so many turns.
    pub fn see<R: Clock>(&self, rt: &R, node: usize) -> bool {
        match self.inside.get(node) {
            Some(inside) => waits_for(rt, inside),
            None => false,
        }
    }

    /// Whether no node was let go before the gate was opened.
    pub fn held(&self) -> bool {
        self.gave_up.load(Ordering::SeqCst) == 0
    }

    /// Whether each node had events, and these were numbered from 0.
    pub fn are_numbered(&self) -> bool {
        for seen in &self.seen {
            if seen.load(Ordering::SeqCst) == 0 {
                return false;
            }
        }
        self.misnumbered.load(Ordering::SeqCst) == 0
    }

    // Counts an event of the node. Only the node's own thread comes with its number.
    fn count(&self, node: usize, event_no: u64) {
        let is_next = match self.seen.get(node) {
            Some(seen) => seen.fetch_add(1, Ordering::SeqCst) == event_no,
            None => false,
        };
        if !is_next {
            self.misnumbered.store(1, Ordering::SeqCst);
        }
    }

    // Holds the node if it is closed, until the gate is opened or so many turns are over.
    fn hold<R: Clock>(&self, rt: &R, node: usize) {
        let (Some(closed), Some(inside)) = (self.closed.get(node), self.inside.get(node)) else {
            return;
        };
        if closed.load(Ordering::SeqCst) == 0 {
            return;
        }
        inside.store(1, Ordering::SeqCst);
        if !waits_for(rt, &self.opened) {
            self.gave_up.store(1, Ordering::SeqCst);
        }
    }
}

fn four() -> [AtomicU64; 4] {
    [
        AtomicU64::new(0),
        AtomicU64::new(0),
        AtomicU64::new(0),
        AtomicU64::new(0),
    ]
}

fn waits_for<R: Clock>(rt: &R, flag: &AtomicU64) -> bool {
    for _ in 0..TURNS {
        if flag.load(Ordering::SeqCst) == 1 {
            return true;
        }
        thread::sleep(rt, Duration::from_millis(1));
    }
    false
}

/// Counts events, and holds the nodes that are closed. If a node is named it stops at its second event.
#[derive(Drop)]
pub struct TestGate<R: Clock> {
    pub rt: R,
    pub flags: Arc<Flags, Global>,
    pub stopping: Option<u16>,
}

impl<R: Clock> Gate for TestGate<R> {
    fn at(&self, node: u16, event_no: u64) {
        let node = usize::from(node);
        self.flags.count(node, event_no);
        self.flags.hold(&self.rt, node);
    }

    fn stops(&self, node: u16, event_no: u64) -> bool {
        event_no == 1 && self.stopping == Some(node)
    }
}
