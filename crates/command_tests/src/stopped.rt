//! Clusters whose nodes stop.

use crate::clusters::{CLUSTER_SETTINGS, Ending, ends_so};
use cluster_run::{Gate, Watch};
use std::alloc::{AllocError, Global};
use std::rt::Clock;
use std::sync::atomic::{AtomicU64, Ordering};
use std::sync::{Arc, Wait};
use std::thread::Threads;

// How many nodes have stopped, and how many seconds the watch noted after all of them had.
#[derive(Drop)]
struct Seen {
    stopped: AtomicU64,
    seconds: AtomicU64,
}

// Stops the first `nodes` nodes, at their first events.
#[derive(Drop)]
struct StopsFirst {
    nodes: u16,
    seen: Arc<Seen, Global>,
}

impl Gate for StopsFirst {
    fn at(&self, _node: u16, _event_no: u64) {}

    fn stops(&self, node: u16, event_no: u64) -> bool {
        let stops = node < self.nodes;
        if stops && event_no == 0 {
            self.seen.stopped.fetch_add(1, Ordering::SeqCst);
        }
        stops
    }
}

#[derive(Drop)]
struct CountsSeconds<'a> {
    nodes: u16,
    seen: &'a Seen,
}

impl Watch for CountsSeconds<'_> {
    fn note(&mut self, _seconds: u64, _answered: u64) {
        if self.seen.stopped.load(Ordering::SeqCst) == u64::from(self.nodes) {
            self.seen.seconds.fetch_add(1, Ordering::SeqCst);
        }
    }

    fn end(&mut self) {}
}

fn new_seen(alloc: Global) -> Result<Arc<Seen, Global>, AllocError> {
    let seen = Seen {
        stopped: AtomicU64::new(0),
        seconds: AtomicU64::new(0),
    };
    Ok(Arc::new(alloc, seen)?)
}

// How many of four replicas stop at their first events, the script, its end and its results, and how many seconds the
// watch may note afterwards.
struct Row {
    nodes: u16,
    script: &'static str,
    ending: Ending,
    results: &'static str,
    most_seconds: u64,
}

static ROWS: [Row; 2] = [
    // The primary stops: the others change their view, and the calls after it are answered.
    Row {
        nodes: 1,
        script: "out (1)\nrdp (*)\ninp (1)\n",
        ending: Ending::Complete,
        results: "done\nfound (1)\nfound (1)\n",
        most_seconds: u64::MAX,
    },
    // Two replicas stop: the run ends before the watch notes more than the one second that may go by meanwhile.
    Row {
        nodes: 2,
        script: "out (1)\n",
        ending: Ending::TooManyStopped,
        results: "",
        most_seconds: 1,
    },
];

fn ends_beside<R: Threads + Wait + Clock + Copy + Send + 'static>(
    rt: &R,
    alloc: Global,
    seen: &Arc<Seen, Global>,
    row: &Row,
) -> bool {
    let Ok(asked) = Arc::try_clone(seen) else {
        return false;
    };
    let nodes = row.nodes;
    let gate = StopsFirst { nodes, seen: asked };
    let mut watch = CountsSeconds { nodes, seen };
    let run = (CLUSTER_SETTINGS, row.script, row.ending, row.results);
    ends_so(rt, alloc, gate, &mut watch, run)
}

fn is_stopped<R: Threads + Wait + Clock + Copy + Send + 'static>(
    rt: &R,
    alloc: Global,
    row: &Row,
) -> bool {
    let Ok(seen) = new_seen(alloc) else {
        return false;
    };
    ends_beside(rt, alloc, &seen, row)
        && seen.stopped.load(Ordering::SeqCst) == u64::from(row.nodes)
        && seen.seconds.load(Ordering::SeqCst) <= row.most_seconds
}

#[test]
fn nodes_stop(rt: HostRuntime) {
    for row in &ROWS {
        assert!(rt; is_stopped(&rt, rt.alloc(), row), "{}", row.nodes);
    }
}
