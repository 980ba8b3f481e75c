//! Numbers and their levels.

use crate::answers::holds;
use crate::order::frames::{FOUND_1, OUT_1};
use crate::order::traces::{Row, Step, has_points};
use test_bytes::{ABSENT, DONE, ORDERED, READ, READ_ONLY, TAKE};

// The greatest number of a batch.
const LAST: u64 = (1 << 48) - 1;

// Replica 3 is faulty, so it doesn't count, and two of the others make a level. It reports a last batch. Replica 1
// installs a state in place of executing number 1.
static FAULTY_RUN: [Step<'static>; 3] = [
    Step::Execute(&[3, 0], 1, &[(0, 1, ORDERED, OUT_1)]),
    Step::Execute(&[3], LAST, &[(2, 1, ORDERED, TAKE)]),
    Step::Install(1, 2),
];

static FAULTY: [Row<'static>; 1] = [(0, 1, OUT_1, DONE, 3)];

#[test]
fn correct_replicas_make_levels(rt: HostRuntime) {
    holds(&rt, has_points(rt.alloc(), &[3], &FAULTY_RUN, &FAULTY));
}

// Numbers between have no batch. A read of one of them stands at the next level, and one of a number to which no level
// comes, at its invocation.
static FAR_RUN: [Step<'static>; 8] = [
    Step::Invoke(1, 1, READ),
    Step::Invoke(0, 2, READ),
    Step::Execute(&[0, 1, 2], 7, &[(0, 1, ORDERED, OUT_1)]),
    Step::Execute(&[0, 1, 2], LAST - 1, &[(2, 1, ORDERED, TAKE)]),
    Step::Get(1, (1, READ_ONLY, 8, ABSENT)),
    Step::Accept(1, 1, ABSENT),
    Step::Get(0, (2, READ_ONLY, LAST, ABSENT)),
    Step::Accept(0, 2, ABSENT),
];

static FAR: [Row<'static>; 4] = [
    (0, 2, READ, ABSENT, 1),
    (0, 1, OUT_1, DONE, 4),
    (1, 1, READ, ABSENT, 7),
    (2, 1, TAKE, FOUND_1, 7),
];

#[test]
fn numbers_far_apart(rt: HostRuntime) {
    holds(&rt, has_points(rt.alloc(), &[], &FAR_RUN, &FAR));
}
