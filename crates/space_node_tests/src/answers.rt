//! Calls that are answered, one after another.

use crate::calls::{Call, call_each};
use crate::clusters::{AMPLE, Play, Trial, come_out};
use journal::Naming;
use space_node::{ClientHandle, Cluster};
use std::alloc::Global;
use std::rt::Clock;
use std::sync::Wait;
use std::thread::Threads;
use terms::NoMemory;

// Clients by their numbers, and the calls of each at a time.
static ROWS: [(usize, &[Call]); 5] = [
    (0, &[("rdp (*)", "absent"), ("out (1)", "done")]),
    (1, &[("rdp (*)", "found (1)")]),
    (0, &[("cas (\"k\" *) (\"k\" 1)", "swapped true")]),
    (
        1,
        &[
            ("cas (\"k\" *) (\"k\" 2)", "swapped false"),
            ("rdp (\"k\" *)", "found (\"k\" 1)"),
        ],
    ),
    (0, &[("inp (*)", "found (1)")]),
];

/// Each correct replica is needed, because nobody tells the others that time goes by.
pub fn answers_all<N: Naming + Send + Sync + 'static, R: Threads + Wait + Clock + Sync>(
    rt: &R,
    alloc: Global,
    cluster: &Cluster<N>,
    clients: &mut [ClientHandle<N>],
) -> Result<bool, NoMemory> {
    for (at, calls) in &ROWS {
        let Some(client) = clients.get_mut(*at) else {
            return Ok(false);
        };
        if !call_each(rt, alloc, cluster, 0, client, calls)? {
            return Ok(false);
        }
    }
    Ok(true)
}

static CALLS: [Trial<'static>; 1] = [Trial {
    faults: 1,
    replicas: &[],
    clients: &[],
    drills: &[],
    limit: AMPLE,
    play: Play::Calls,
}];

#[test]
fn calls_are_answered(rt: HostRuntime) {
    come_out(&rt, rt.alloc(), &CALLS);
}
