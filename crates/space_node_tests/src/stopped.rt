//! Nodes that stop.

use crate::calls::{Call, call_each};
use crate::clusters::{AMPLE, Play, Trial, come_out};
use journal::Naming;
use space_node::{ClientHandle, Cluster};
use std::alloc::Global;
use std::rt::Clock;
use std::sync::Wait;
use std::thread::Threads;
use terms::{NoMemory, Party, ReplicaId};

static STOPPED: [Trial<'static>; 1] = [Trial {
    faults: 1,
    replicas: &[],
    clients: &[],
    drills: &[],
    limit: AMPLE,
    play: Play::Stops(3),
}];

static CALLS: [Call; 2] = [("out (1)", "done"), ("rdp (*)", "found (1)")];

/// Whether the others answer. A pulse makes sure that the node has a second event.
pub fn others_answer<N: Naming + Send + Sync + 'static, R: Threads + Wait + Clock + Sync>(
    rt: &R,
    alloc: Global,
    cluster: &Cluster<N>,
    client: &mut ClientHandle<N>,
    node: u8,
) -> Result<bool, NoMemory> {
    let party = Party::Replica(ReplicaId(node));
    cluster.pulse(rt, party);
    cluster.pulse(rt, party);
    call_each(rt, alloc, cluster, 1, client, &CALLS)
}

/// Whether the run names this node, and nobody else.
pub fn is_node_alone(stopped: &[Party], node: u8) -> bool {
    match stopped {
        [party] => party.number() == u16::from(node),
        _ => false,
    }
}

#[test]
fn a_stopped_node_is_named(rt: HostRuntime) {
    come_out(&rt, rt.alloc(), &STOPPED);
}
