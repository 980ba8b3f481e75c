//! Requests that ran.

use crate::answers::holds;
use crate::order::frames::{FOUND_1, OUT_1, OUT_2};
use crate::order::traces::{Row, Step, has_points};
use std::alloc::Global;
use terms::NoMemory;
use test_bytes::{ABSENT, DONE, ORDERED, READ, READ_ONLY, TAKE};

// A write, an accepted answer to it, and two reads: one of the state after it, and then one of the state before it.
static WRITE_RUN: [Step<'static>; 10] = [
    Step::Invoke(0, 1, OUT_1),
    Step::Execute(&[0, 1, 2], 1, &[(0, 1, ORDERED, OUT_1)]),
    Step::Get(0, (1, ORDERED, 1, DONE)),
    Step::Accept(0, 1, DONE),
    Step::Invoke(1, 1, READ),
    Step::Get(1, (1, READ_ONLY, 1, FOUND_1)),
    Step::Accept(1, 1, FOUND_1),
    Step::Invoke(0, 2, READ),
    Step::Get(0, (2, READ_ONLY, 0, ABSENT)),
    Step::Accept(0, 2, ABSENT),
];

static WRITE_AND_READS: [Row<'static>; 3] = [
    (0, 1, OUT_1, DONE, 3),
    (1, 1, READ, FOUND_1, 6),
    (0, 2, READ, ABSENT, 9),
];

#[test]
fn a_write_and_two_reads(rt: HostRuntime) {
    holds(
        &rt,
        has_points(rt.alloc(), &[], &WRITE_RUN, &WRITE_AND_READS),
    );
}

// At the second try if memory ran out at the first one.
fn has_points_again(alloc: Global) -> Result<bool, NoMemory> {
    match has_points(alloc, &[], &WRITE_RUN, &WRITE_AND_READS) {
        Err(NoMemory) => has_points(alloc, &[], &WRITE_RUN, &WRITE_AND_READS),
        first => first,
    }
}

// `tools/growths` refuses each growth in turn.
#[test]
fn refused_memory(rt: HostRuntime) {
    holds(&rt, has_points_again(rt.alloc()));
}

// A request twice, one of a client that there isn't, and then one of an earlier timestamp. The second batch is none: no
// batch has a request that is read-only.
static MIXED_RUN: [Step<'static>; 3] = [
    Step::Execute(
        &[0, 1, 2],
        1,
        &[
            (0, 2, ORDERED, OUT_1),
            (0, 2, ORDERED, OUT_1),
            (3, 1, ORDERED, OUT_2),
            (0, 1, ORDERED, OUT_2),
        ],
    ),
    Step::Execute(
        &[0, 1, 2],
        2,
        &[(2, 1, ORDERED, OUT_2), (1, 1, READ_ONLY, READ)],
    ),
    Step::Execute(&[2, 1, 0], 3, &[(1, 1, ORDERED, TAKE)]),
];

static ONCE: [Row<'static>; 2] = [(0, 2, OUT_1, DONE, 2), (1, 1, TAKE, FOUND_1, 8)];

#[test]
fn a_request_runs_once(rt: HostRuntime) {
    holds(&rt, has_points(rt.alloc(), &[], &MIXED_RUN, &ONCE));
}

#[test]
fn nothing_in_an_empty_trace(rt: HostRuntime) {
    holds(&rt, has_points(rt.alloc(), &[], &[], &[]));
}

// A timestamp of a later life, as a clock gives one.
const LATER: u64 = (1_700_000_000_000 << 20) + 1;

// A client is started again, while its call of timestamp 1 is open, and reads. The left request runs after that.
static LEFT_RUN: [Step<'static>; 5] = [
    Step::Invoke(0, 1, OUT_1),
    Step::Invoke(0, LATER, READ),
    Step::Execute(&[0, 1, 2], 1, &[(0, 1, ORDERED, OUT_1)]),
    Step::Get(0, (LATER, READ_ONLY, 1, FOUND_1)),
    Step::Accept(0, LATER, FOUND_1),
];

static LEFT_ONCE: [Row<'static>; 2] = [(0, 1, OUT_1, DONE, 4), (0, LATER, READ, FOUND_1, 4)];

#[test]
fn a_call_that_a_life_left_open_acts_once(rt: HostRuntime) {
    holds(&rt, has_points(rt.alloc(), &[], &LEFT_RUN, &LEFT_ONCE));
}

// The same, but a request of the later life runs first.
static PASSED_RUN: [Step<'static>; 3] = [
    Step::Invoke(0, 1, OUT_1),
    Step::Invoke(0, LATER, OUT_2),
    Step::Execute(
        &[0, 1, 2],
        1,
        &[(0, LATER, ORDERED, OUT_2), (0, 1, ORDERED, OUT_1)],
    ),
];

static LEFT_OUT: [Row<'static>; 1] = [(0, LATER, OUT_2, DONE, 4)];

#[test]
fn a_call_that_a_later_one_passed_never_acts(rt: HostRuntime) {
    holds(&rt, has_points(rt.alloc(), &[], &PASSED_RUN, &LEFT_OUT));
}
