//! A request that goes through the three phases, and reads beside it.

use crate::answers::holds;
use crate::frames::Sent;
use crate::replicas::{Given, Row, runs};

// The primary numbers the request, commits with prepares of two backups, executes with two commits beside its own,
// and answers. Further frames than it needs give nothing.
pub static AT_PRIMARY: [Row<'static>; 8] = [
    (Sent::Request(1), &[Given::Sends(Sent::PrePrepare(1))]),
    (Sent::Prepare(1, 1), &[]),
    (Sent::Prepare(1, 2), &[Given::Sends(Sent::Commit(1, 0))]),
    (Sent::Prepare(1, 3), &[]),
    (Sent::Commit(1, 2), &[]),
    (
        Sent::Commit(1, 3),
        &[Given::Executes(1), Given::Sends(Sent::Reply(1, 0))],
    ),
    (Sent::Commit(1, 1), &[]),
    (Sent::Request(1), &[Given::Sends(Sent::Reply(1, 0))]),
];

// A backup prepares the batch that the primary numbered, and commits with the prepare of another backup.
pub static AT_BACKUP: [Row<'static>; 8] = [
    (Sent::Request(1), &[]),
    (Sent::PrePrepare(1), &[Given::Sends(Sent::Prepare(1, 1))]),
    (Sent::Prepare(1, 2), &[Given::Sends(Sent::Commit(1, 1))]),
    (Sent::Prepare(1, 3), &[]),
    (Sent::Commit(1, 2), &[]),
    (
        Sent::Commit(1, 3),
        &[Given::Executes(1), Given::Sends(Sent::Reply(1, 1))],
    ),
    (Sent::Commit(1, 0), &[]),
    (Sent::Request(1), &[Given::Sends(Sent::Reply(1, 1))]),
];

// The request comes to replica 2 inside the batch alone.
static WITHOUT_REQUEST: [Row<'static>; 5] = [
    (Sent::PrePrepare(1), &[Given::Sends(Sent::Prepare(1, 2))]),
    (Sent::Prepare(1, 3), &[Given::Sends(Sent::Commit(1, 2))]),
    (Sent::Commit(1, 0), &[]),
    (
        Sent::Commit(1, 1),
        &[Given::Executes(1), Given::Sends(Sent::Reply(1, 2))],
    ),
    (Sent::Request(1), &[Given::Sends(Sent::Reply(1, 2))]),
];

// The votes come to replica 3 first, and the batch does the rest.
static BACKWARDS: [Row<'static>; 6] = [
    (Sent::Commit(1, 0), &[]),
    (Sent::Commit(1, 1), &[]),
    (Sent::Prepare(1, 1), &[]),
    (
        Sent::PrePrepare(1),
        &[
            Given::Sends(Sent::Prepare(1, 3)),
            Given::Sends(Sent::Commit(1, 3)),
            Given::Executes(1),
            Given::Sends(Sent::Reply(1, 3)),
        ],
    ),
    (Sent::PrePrepare(1), &[]),
    (Sent::Request(1), &[Given::Sends(Sent::Reply(1, 3))]),
];

// The waiting request comes again, and the frames that were sent for its number go out again.
pub static AGAIN_AT_PRIMARY: [Row<'static>; 5] = [
    (Sent::Request(1), &[Given::Sends(Sent::PrePrepare(1))]),
    (Sent::Request(1), &[Given::Sends(Sent::PrePrepare(1))]),
    (Sent::Prepare(1, 1), &[]),
    (Sent::Prepare(1, 3), &[Given::Sends(Sent::Commit(1, 0))]),
    (
        Sent::Request(1),
        &[
            Given::Sends(Sent::PrePrepare(1)),
            Given::Sends(Sent::Commit(1, 0)),
        ],
    ),
];

pub static AGAIN_AT_BACKUP: [Row<'static>; 6] = [
    (Sent::Request(1), &[]),
    (Sent::Request(1), &[]),
    (Sent::PrePrepare(1), &[Given::Sends(Sent::Prepare(1, 1))]),
    (Sent::Request(1), &[Given::Sends(Sent::Prepare(1, 1))]),
    (Sent::Prepare(1, 2), &[Given::Sends(Sent::Commit(1, 1))]),
    (
        Sent::Request(1),
        &[
            Given::Sends(Sent::Prepare(1, 1)),
            Given::Sends(Sent::Commit(1, 1)),
        ],
    ),
];

/// A read is answered at once from the executed state, also by a replica that waits for others, and again each time.
pub static READS: [Row<'static>; 7] = [
    (Sent::Read, &[Given::Sends(Sent::ReadReply(0, 1))]),
    (Sent::PrePrepare(1), &[Given::Sends(Sent::Prepare(1, 1))]),
    (Sent::Prepare(1, 2), &[Given::Sends(Sent::Commit(1, 1))]),
    (Sent::Read, &[Given::Sends(Sent::ReadReply(0, 1))]),
    (Sent::Commit(1, 2), &[]),
    (
        Sent::Commit(1, 3),
        &[Given::Executes(1), Given::Sends(Sent::Reply(1, 1))],
    ),
    (Sent::Read, &[Given::Sends(Sent::ReadReply(1, 1))]),
];

#[test]
fn a_request_is_ordered(rt: HostRuntime) {
    holds(&rt, runs(rt.alloc(), 0, 16, &[&AT_PRIMARY]));
    holds(&rt, runs(rt.alloc(), 1, 16, &[&AT_BACKUP]));
    holds(&rt, runs(rt.alloc(), 2, 16, &[&WITHOUT_REQUEST]));
    holds(&rt, runs(rt.alloc(), 3, 16, &[&BACKWARDS]));
}

#[test]
fn a_waiting_request_comes_again(rt: HostRuntime) {
    holds(&rt, runs(rt.alloc(), 0, 16, &[&AGAIN_AT_PRIMARY]));
    holds(&rt, runs(rt.alloc(), 1, 16, &[&AGAIN_AT_BACKUP]));
}

#[test]
fn reads_are_answered_beside_the_order(rt: HostRuntime) {
    holds(&rt, runs(rt.alloc(), 1, 16, &[&READS]));
}
