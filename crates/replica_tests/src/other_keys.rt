//! A replica whose keys another seed gave than those of all other parties: it takes no frame.

use crate::answers::{holds, of_stop};
use crate::frames::{Sent, frame_of};
use crate::replicas::replica_of_seed;
use crate::signed::Change;
use crate::states::{ROOT, State};
use replica::{Event, Replica};
use std::alloc::Global;
use test_bytes::{FRAME_SEED, Verdict, all_hold};

const OTHER_SEED: [u8; 32] = [8; 32];

// A replica, and frames of the run for it. With the right keys it sends something for the last of them.
type Row<'a> = (u8, &'a [Sent]);

const ONE: State = State::Behind(1);

const TO_1: Change = Change {
    sender: 0,
    leaf: 0,
    view: 1,
    low: 0,
    kept: &[0],
    prepared: &[],
    logged: &[],
    is_forged: false,
};

const ALSO_TO_1: Change = Change { sender: 2, ..TO_1 };

static ROWS: [Row<'static>; 6] = [
    (0, &[Sent::Request(1)]),
    (1, &[Sent::Read]),
    (1, &[Sent::PrePrepare(1)]),
    (1, &[Sent::Fetch(0, ROOT, 0)]),
    (
        1,
        &[
            Sent::Checkpoint(1, ONE, 0),
            Sent::Checkpoint(1, ONE, 2),
            Sent::Checkpoint(1, ONE, 3),
        ],
    ),
    (1, &[Sent::ViewChange(&TO_1), Sent::ViewChange(&ALSO_TO_1)]),
];

// Whether the replica gives something for bytes that come.
fn acts(replica: &mut Replica, alloc: Global, bytes: &[u8]) -> Verdict {
    match replica.step(alloc, Event::Got(bytes)) {
        Ok(outputs) => {
            let gives_some = !outputs.is_empty();
            drop(outputs);
            Ok(gives_some)
        }
        Err(stop) => of_stop(stop),
    }
}

fn acts_on(replica: &mut Replica, alloc: Global, sent: Sent) -> Verdict {
    let frame = frame_of(alloc, sent);
    let verdict = acts(replica, alloc, frame.bytes());
    frame.end(verdict)
}

// Whether it gives something for one of them.
fn acts_on_any(replica: &mut Replica, alloc: Global, all: &[Sent]) -> Verdict {
    for sent in all {
        match acts_on(replica, alloc, *sent) {
            Ok(false) => {}
            other => return other,
        }
    }
    Ok(false)
}

// Whether it acts as is expected, and goes on.
fn does(replica: &mut Replica, alloc: Global, all: &[Sent], expected: bool) -> Verdict {
    match acts_on_any(replica, alloc, all) {
        Ok(has_acted) => Ok(has_acted == expected && !replica.is_stopped()),
        other => other,
    }
}

fn does_by(alloc: Global, seed: &[u8; 32], (me, all): Row<'_>, expected: bool) -> Verdict {
    match replica_of_seed(alloc, seed, 1, me) {
        Ok(mut replica) => {
            let verdict = does(&mut *replica, alloc, all, expected);
            drop(replica);
            verdict
        }
        Err(stop) => of_stop(stop),
    }
}

fn needs_right_keys(alloc: Global, row: Row<'_>) -> Verdict {
    all_hold(&[
        does_by(alloc, &FRAME_SEED, row, true),
        does_by(alloc, &OTHER_SEED, row, false),
    ])
}

#[test]
fn keys_of_another_seed(rt: HostRuntime) {
    for &row in &ROWS {
        holds(&rt, needs_right_keys(rt.alloc(), row));
    }
}
