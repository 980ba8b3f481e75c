//! Frames that give nothing.

use crate::answers::{holds, of_stop};
use crate::frames::{Sent, frame_of};
use crate::replicas::{Given, gives, gives_for, replica_of_period};
use replica::Replica;
use std::alloc::Global;
use test_bytes::{Buffer, Verdict};

// The receiver of the frame, the frame, and its changed byte, if any.
type Row = (u8, Sent, Option<usize>);

// A request's body stands at 4 to 26, its MAC for replica 0 at 31.
static DROPPED: [Row; 16] = [
    // A read-only request of an operation that is no read; frames of its own; a frame without a MAC for it; a prepare
    // of the primary.
    (0, Sent::ReadOnlyTake, None),
    (1, Sent::ReadOnlyTake, None),
    (1, Sent::Prepare(1, 1), None),
    (1, Sent::Commit(1, 1), None),
    (0, Sent::PrePrepare(1), None),
    (1, Sent::Prepare(1, 0), None),
    (1, Sent::Reply(1, 0), None),
    // The length, the type, the sender, the timestamp, the operation, the MAC for replica 0.
    (0, Sent::Request(1), Some(3)),
    (0, Sent::Request(1), Some(4)),
    (0, Sent::Request(1), Some(6)),
    (0, Sent::Request(1), Some(14)),
    (0, Sent::Request(1), Some(26)),
    (0, Sent::Request(1), Some(31)),
    // The kind of proof, and how many MACs there are.
    (0, Sent::Request(1), Some(27)),
    (0, Sent::Request(1), Some(28)),
    // A batch whose request is not authentic to it.
    (1, Sent::Forged, None),
];

// Turns the lowest bit of a byte.
fn change(frame: &mut Buffer, at: Option<usize>) {
    if let Some(at) = at {
        frame.turn(at, 1);
    }
}

// Whether nothing is given for it, and the request is then ordered as if it had not come.
fn is_dropped(alloc: Global, (me, sent, at): Row) -> Verdict {
    let mut frame = frame_of(alloc, sent);
    change(&mut frame, at);
    let verdict = are_dropped(alloc, me, &[frame.bytes()]);
    frame.end(verdict)
}

fn are_dropped(alloc: Global, me: u8, all: &[&[u8]]) -> Verdict {
    match replica_of_period(alloc, 16, me) {
        Ok(mut replica) => {
            let verdict = drops_all(&mut *replica, alloc, me, all);
            drop(replica);
            verdict
        }
        Err(stop) => of_stop(stop),
    }
}

fn drops_all(replica: &mut Replica, alloc: Global, me: u8, all: &[&[u8]]) -> Verdict {
    for bytes in all {
        match gives(replica, alloc, bytes, &[]) {
            Ok(true) => {}
            other => return other,
        }
    }
    goes_on(replica, alloc, me)
}

static NUMBERS_IT: [Given; 1] = [Given::Sends(Sent::PrePrepare(1))];

fn goes_on(replica: &mut Replica, alloc: Global, me: u8) -> Verdict {
    if me == 0 {
        gives_for(replica, alloc, Sent::Request(1), &NUMBERS_IT)
    } else {
        let prepares = [Given::Sends(Sent::Prepare(1, me))];
        gives_for(replica, alloc, Sent::PrePrepare(1), &prepares)
    }
}

#[test]
fn frames_that_are_dropped(rt: HostRuntime) {
    for &row in &DROPPED {
        holds(&rt, is_dropped(rt.alloc(), row));
    }
}

#[test]
fn bytes_that_are_no_frame(rt: HostRuntime) {
    let all: [&[u8]; 4] = [b"", b"\0", b"\0\0\0\0", &[0xff; 64]];
    holds(&rt, are_dropped(rt.alloc(), 0, &all));
}
