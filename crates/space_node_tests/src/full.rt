//! Journals that are full.

use crate::clusters::{Play, Trial, come_out};
use journal::Naming;
use space_node::{CallFault, ClientHandle, Cluster};
use std::alloc::Global;
use std::sync::Wait;
use terms::{ClientId, NoMemory, Party};
use tuple_codec::Op;
use tuple_tree::Tuple;

// The client learns that time went by more often than the limit needs, because memory may run out once.
static LIMITS: [Trial<'static>; 3] = [
    Trial {
        faults: 1,
        replicas: &[],
        clients: &[],
        drills: &[],
        limit: 1,
        play: Play::Full(0, Some(0)),
    },
    Trial {
        faults: 1,
        replicas: &[],
        clients: &[],
        drills: &[],
        limit: 2,
        play: Play::Full(2, Some(2)),
    },
    Trial {
        faults: 1,
        replicas: &[],
        clients: &[],
        drills: &[],
        limit: 10,
        play: Play::Full(8, None),
    },
];

/// Whether a call meets the limit, and one more finds the client stopped, after time went by so often.
pub fn is_refused_after<N: Naming + Send + Sync + 'static, R: Wait>(
    rt: &R,
    alloc: Global,
    cluster: &Cluster<N>,
    client: &mut ClientHandle<N>,
    pulses: u8,
) -> Result<bool, NoMemory> {
    for _ in 0..pulses {
        cluster.pulse(rt, Party::Client(ClientId { number: 0 }));
    }
    let first = refusal(rt, alloc, client);
    let again = refusal(rt, alloc, client);
    if first == Some(CallFault::NoMemory) || again == Some(CallFault::NoMemory) {
        return Err(NoMemory);
    }
    Ok(first == Some(CallFault::JournalFull) && again == Some(CallFault::Stopped))
}

// Why the client is refused to put an empty tuple.
fn refusal<N: Naming, R: Wait>(
    rt: &R,
    alloc: Global,
    client: &mut ClientHandle<N>,
) -> Option<CallFault> {
    client.call(rt, alloc, Op::Out(Tuple::new_in(alloc))).err()
}

#[test]
fn full_journals_refuse(rt: HostRuntime) {
    come_out(&rt, rt.alloc(), &LIMITS);
}
