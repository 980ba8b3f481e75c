//! Calls that are answered while nodes are held.

use crate::calls::{Call, call_each};
use crate::clusters::{AMPLE, Play, Trial, come_out};
use crate::gates::Flags;
use journal::Naming;
use space_node::{ClientHandle, Cluster};
use std::alloc::Global;
use std::rt::Clock;
use std::sync::Wait;
use std::thread::Threads;
use terms::{NoMemory, Party, ReplicaId};

/// The calls before nodes are held and while they are, and these nodes.
#[derive(Clone, Copy)]
pub struct Holding<'a> {
    pub first: &'a [Call],
    pub then: &'a [Call],
    pub nodes: &'a [u8],
}

static HOLDINGS: [Trial<'static>; 2] = [
    // One node is held within an event: the other three are enough.
    Trial {
        faults: 1,
        replicas: &[],
        clients: &[],
        drills: &[],
        limit: AMPLE,
        play: Play::Holds(Holding {
            first: &[("rdp (*)", "absent")],
            then: &[("out (1)", "done")],
            nodes: &[3],
        }),
    },
    // The next event of each node is held: a read is answered beside.
    Trial {
        faults: 1,
        replicas: &[],
        clients: &[],
        drills: &[],
        limit: AMPLE,
        play: Play::Holds(Holding {
            first: &[("out (1)", "done")],
            then: &[("rdp (*)", "found (1)")],
            nodes: &[0, 1, 2, 3],
        }),
    },
];

// Closes the gate before the nodes' next events, makes these, and waits until the nodes are there. A node that stopped
// doesn't come, nor one to which there was no memory to tell that time went by.
fn hold<N: Naming + Send + Sync + 'static, R: Wait + Clock>(
    rt: &R,
    cluster: &Cluster<N>,
    flags: &Flags,
    nodes: &[u8],
) -> Result<(), NoMemory> {
    for node in nodes {
        flags.close(usize::from(*node));
    }
    for node in nodes {
        cluster.pulse(rt, Party::Replica(ReplicaId(*node)));
    }
    for node in nodes {
        if !flags.see(rt, usize::from(*node)) {
            return Err(NoMemory);
        }
    }
    Ok(())
}

/// Whether the calls are answered, and no node was let go meanwhile.
pub fn calls_past<N: Naming + Send + Sync + 'static, R: Threads + Wait + Clock + Sync>(
    rt: &R,
    alloc: Global,
    cluster: &Cluster<N>,
    client: &mut ClientHandle<N>,
    flags: &Flags,
    holding: &Holding<'_>,
) -> Result<bool, NoMemory> {
    if !call_each(rt, alloc, cluster, 0, client, holding.first)? {
        return Ok(false);
    }
    hold(rt, cluster, flags, holding.nodes)?;
    Ok(call_each(rt, alloc, cluster, 0, client, holding.then)? && flags.held())
}

#[test]
fn held_nodes_stop_nobody(rt: HostRuntime) {
    come_out(&rt, rt.alloc(), &HOLDINGS);
}
