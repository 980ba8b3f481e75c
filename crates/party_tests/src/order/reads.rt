//! Reads that were accepted by read-only replies, and those that weren't.

use crate::answers::{all_hold, holds};
use crate::order::frames::{FOUND_1, OUT_1};
use crate::order::traces::{Row, Step, has_points};
use test_bytes::{ABSENT, DONE, ORDERED, READ, READ_ONLY};

// Clients 0 and 1 read the state after a write that comes later than their calls, and client 1 accepts first.
static EARLY_RUN: [Step<'static>; 7] = [
    Step::Invoke(0, 1, READ),
    Step::Invoke(1, 1, READ),
    Step::Execute(&[0, 1, 3], 1, &[(2, 1, ORDERED, OUT_1)]),
    Step::Get(1, (1, READ_ONLY, 1, FOUND_1)),
    Step::Accept(1, 1, FOUND_1),
    Step::Get(0, (1, READ_ONLY, 1, FOUND_1)),
    Step::Accept(0, 1, FOUND_1),
];

static EARLY_READS: [Row<'static>; 3] = [
    (2, 1, OUT_1, DONE, 4),
    (0, 1, READ, FOUND_1, 4),
    (1, 1, READ, FOUND_1, 4),
];

#[test]
fn reads_stand_behind_writes_by_client(rt: HostRuntime) {
    holds(&rt, has_points(rt.alloc(), &[], &EARLY_RUN, &EARLY_READS));
}

// A call is read, and its request runs too.
static DOUBLED_RUN: [Step<'static>; 4] = [
    Step::Invoke(0, 5, READ),
    Step::Execute(&[0, 1, 2], 1, &[(0, 5, ORDERED, READ)]),
    Step::Get(0, (5, READ_ONLY, 0, ABSENT)),
    Step::Accept(0, 5, ABSENT),
];

static DOUBLED: [Row<'static>; 1] = [(0, 5, READ, ABSENT, 0)];

#[test]
fn a_read_that_ran_too_stands_once(rt: HostRuntime) {
    holds(&rt, has_points(rt.alloc(), &[], &DOUBLED_RUN, &DOUBLED));
}

// The last entry of the client before its acceptance is a tick.
static TICKED: [Step<'static>; 4] = [
    Step::Invoke(0, 1, READ),
    Step::Get(0, (1, READ_ONLY, 0, ABSENT)),
    Step::Tick(0),
    Step::Accept(0, 1, ABSENT),
];

static FORGED: [Step<'static>; 3] = [
    Step::Invoke(0, 1, READ),
    Step::GetForged(0, (1, READ_ONLY, 0, ABSENT)),
    Step::Accept(0, 1, ABSENT),
];

// An ordered reply, a reply to another call, and an answer without a call.
static OTHER_REPLIES: [Step<'static>; 8] = [
    Step::Invoke(0, 1, READ),
    Step::Get(0, (1, ORDERED, 0, ABSENT)),
    Step::Accept(0, 1, ABSENT),
    Step::Invoke(1, 2, READ),
    Step::Get(1, (1, READ_ONLY, 0, ABSENT)),
    Step::Accept(1, 2, ABSENT),
    Step::Get(2, (1, READ_ONLY, 0, ABSENT)),
    Step::Accept(2, 1, ABSENT),
];

#[test]
fn other_acceptances_are_no_reads(rt: HostRuntime) {
    holds(
        &rt,
        all_hold(&[
            has_points(rt.alloc(), &[], &TICKED, &[]),
            has_points(rt.alloc(), &[], &FORGED, &[]),
            has_points(rt.alloc(), &[], &OTHER_REPLIES, &[]),
        ]),
    );
}
