//! Clusters with faulty replicas, each of which does a drill.

use crate::calls::{Call, call_each};
use crate::clusters::{AMPLE, Play, Trial, come_out};
use events::{Entry, EntryKind};
use journal::Naming;
use space_node::{ClientHandle, Cluster, Drill, Run};
use std::alloc::Global;
use std::rt::Clock;
use std::sync::Wait;
use std::thread;
use std::thread::Threads;
use std::time::Duration;
use terms::NoMemory;
use wire::judge;

static CALLS: [Call; 6] = [
    ("rdp (*)", "absent"),
    ("out (1)", "done"),
    ("rdp (*)", "found (1)"),
    ("rdAll 64 (*)", "all 1 (1)"),
    ("inp (*)", "found (1)"),
    ("rdp (*)", "absent"),
];

static LATE_CALL: [Call; 1] = [("rdp (*)", "absent")];

// How often a client calls on, with a pause before each call, so that it takes late frames.
const LATE_CALLS: u32 = 20;

/// Each correct replica is needed.
pub fn calls_all<N: Naming + Send + Sync + 'static, R: Threads + Wait + Clock + Sync>(
    rt: &R,
    alloc: Global,
    cluster: &Cluster<N>,
    client: &mut ClientHandle<N>,
) -> Result<bool, NoMemory> {
    let mut calls: &[Call] = &CALLS;
    for _ in 0..LATE_CALLS {
        if !call_each(rt, alloc, cluster, 0, client, calls)? {
            return Ok(false);
        }
        thread::sleep(rt, Duration::from_millis(5));
        calls = &LATE_CALL;
    }
    call_each(rt, alloc, cluster, 0, client, calls)
}

/// Whether each correct replica has a share. The faulty ones have the last numbers.
pub fn has_correct_shares<N: Naming>(run: &Run<N>, faults: u8) -> bool {
    for (at, share) in run.shares.iter().enumerate() {
        if usize::from(share.party().number()) != at {
            return false;
        }
    }
    run.shares.len() == 2 * usize::from(faults) + 1
}

/// Whether a frame of a faulty replica was got exactly if it is stale.
pub fn receives_stale_alone(trace: &[Entry], drills: &[(u16, Drill)]) -> bool {
    for (replica, drill) in drills {
        if receives(trace, *replica) != (*drill == Drill::Stale) {
            return false;
        }
    }
    true
}

// Whether a frame of this sender was got.
fn receives(trace: &[Entry], sender: u16) -> bool {
    for entry in trace {
        if is_got_from(entry, sender) {
            return true;
        }
    }
    false
}

fn is_got_from(entry: &Entry, sender: u16) -> bool {
    match entry.kind() {
        EntryKind::Got(_, bytes) => match judge(bytes.as_slice()) {
            Ok(header) => header.sender.number() == sender,
            Err(_) => false,
        },
        _ => false,
    }
}

static LIARS: [Trial<'static>; 3] = [
    Trial {
        faults: 1,
        replicas: &[3],
        clients: &[],
        drills: &[(3, Drill::Silent)],
        limit: AMPLE,
        play: Play::Drills,
    },
    Trial {
        faults: 1,
        replicas: &[3],
        clients: &[],
        drills: &[(3, Drill::Stale)],
        limit: AMPLE,
        play: Play::Drills,
    },
    Trial {
        faults: 2,
        replicas: &[5, 6],
        clients: &[],
        drills: &[(6, Drill::Stale), (5, Drill::Silent)],
        limit: AMPLE,
        play: Play::Drills,
    },
];

#[test]
fn liars_change_no_answer(rt: HostRuntime) {
    come_out(&rt, rt.alloc(), &LIARS);
}

// Drills that are not those of the faulty replicas.
static REFUSED: [Trial<'static>; 6] = [
    // A faulty replica has none.
    Trial {
        faults: 1,
        replicas: &[3],
        clients: &[],
        drills: &[],
        limit: AMPLE,
        play: Play::Refused,
    },
    // A correct one has one.
    Trial {
        faults: 1,
        replicas: &[],
        clients: &[],
        drills: &[(3, Drill::Silent)],
        limit: AMPLE,
        play: Play::Refused,
    },
    Trial {
        faults: 1,
        replicas: &[3],
        clients: &[],
        drills: &[(3, Drill::Stale), (2, Drill::Stale)],
        limit: AMPLE,
        play: Play::Refused,
    },
    // A faulty one has two.
    Trial {
        faults: 1,
        replicas: &[3],
        clients: &[],
        drills: &[(3, Drill::Silent), (3, Drill::Stale)],
        limit: AMPLE,
        play: Play::Refused,
    },
    // There is no such replica.
    Trial {
        faults: 1,
        replicas: &[3],
        clients: &[],
        drills: &[(3, Drill::Silent), (4, Drill::Silent)],
        limit: AMPLE,
        play: Play::Refused,
    },
    // A client is faulty.
    Trial {
        faults: 1,
        replicas: &[3],
        clients: &[1],
        drills: &[(3, Drill::Silent)],
        limit: AMPLE,
        play: Play::Refused,
    },
];

#[test]
fn other_drills_are_refused(rt: HostRuntime) {
    come_out(&rt, rt.alloc(), &REFUSED);
}
