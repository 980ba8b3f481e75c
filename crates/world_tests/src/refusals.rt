//! Steps that may not come.

use crate::runs::{Check, Part, Run, come_out, comes_out};
use crate::worlds::{BACKUP_AND_CLIENT, TEN};
use std::alloc::Global;

// Schedules, and the step of each that is the first that may not come.
static SCHEDULES: [(&[&str], Option<usize>); 47] = [
    (&["invoke 1 out (1)"], Some(0)),
    (&["invoke 2 out (1)"], Some(0)),
    (&["invoke 65279 out (1)"], Some(0)),
    (&["invoke 0 out (1)", "invoke 0 out (1)"], Some(1)),
    (&["deliver 0 r0"], Some(0)),
    (&["invoke 0 out (1)", "deliver 1 r0"], Some(1)),
    (&["invoke 0 out (1)", "deliver 0 r3"], Some(1)),
    (&["invoke 0 out (1)", "deliver 0 r4"], Some(1)),
    (&["invoke 0 out (1)", "deliver 0 c1"], Some(1)),
    (&["invoke 0 out (1)", "deliver 0 c2"], Some(1)),
    (&["bytes r3 00"], Some(0)),
    (&["bytes r4 00"], Some(0)),
    (&["bytes c1 00"], Some(0)),
    (&["bytes c2 00"], Some(0)),
    (&["seal r0 r1 00"], Some(0)),
    (&["seal r4 r1 00"], Some(0)),
    (&["seal c0 r1 00"], Some(0)),
    (&["seal c2 r1 00"], Some(0)),
    (&["seal r3 r4 00"], Some(0)),
    (&["seal r3 r1,r1 00"], Some(0)),
    (&["seal r3 r2,r1 00"], Some(0)),
    (&["seal c1 c0,r0 00"], Some(0)),
    (&["seal c1 c2 00"], Some(0)),
    (&["seal r3 r0,c0,c2 00"], Some(0)),
    (&["sign r0 0 r1 00"], Some(0)),
    (&["sign r4 0 r1 00"], Some(0)),
    (&["sign c1 0 r1 00"], Some(0)),
    (&["sign r3 64 r1 00"], Some(0)),
    (&["sign r3 0 r4 00"], Some(0)),
    (&["sign r3 0 r2,r1 00"], Some(0)),
    (&["sign r3 18446744073709551615 r1 00"], Some(0)),
    (&["sign c0 0 r1 00"], Some(0)),
    (&["sign r3 256 r1 00"], Some(0)),
    (&["sign r3 0 r1,r1 00"], Some(0)),
    (&["sign r3 0 r1 00", "deliver 1 r1"], Some(1)),
    (&["tick r3"], Some(0)),
    (&["tick r4"], Some(0)),
    (&["tick c1"], Some(0)),
    (&["flush", "tick c2"], Some(1)),
    // The second step may not come.
    (&["flush", "tick r3", "tick c1", "flush"], Some(1)),
    // Each may come.
    (&[], None),
    (&["flush"], None),
    (
        &[
            "invoke 0 out (1)",
            "deliver 0 r0",
            "deliver 0 r0",
            "deliver 0 c0",
        ],
        None,
    ),
    (
        &[
            "seal r3 r3 00",
            "seal c1 c0,c1 ffff",
            "deliver 1 c0",
            "deliver 0 r0",
            "flush",
        ],
        None,
    ),
    (
        &[
            "sign r3 63 r0,r3,c0 00",
            "sign r3 63 r0 ffff",
            "deliver 1 c0",
            "deliver 0 r0",
            "flush",
        ],
        None,
    ),
    (&["bytes r0 00", "bytes c0 00ff"], None),
    (
        &[
            "tick r0",
            "tick c0",
            "invoke 0 out (1)",
            "tick c0",
            "deliver 1 r0",
        ],
        None,
    ),
];

// The run of these lines, if client 1 and replica 3 are faulty. No party has stopped before the step that may not
// come.
fn is_refused_at(alloc: Global, lines: &[&str], step: Option<usize>) -> bool {
    comes_out(
        alloc,
        &Run {
            world: BACKUP_AND_CLIENT,
            parts: &[Part::Lines(lines)],
            refused: step,
            checks: &[Check::NobodyStops],
        },
    )
}

// The first of these schedules that another step refuses.
fn first_wrong(alloc: Global, schedules: &[(&[&str], Option<usize>)]) -> Option<usize> {
    let mut number = 0usize;
    for (lines, step) in schedules {
        if !is_refused_at(alloc, lines, *step) {
            return Some(number);
        }
        number = number.saturating_add(1);
    }
    None
}

#[test]
fn refuses_the_first_that_may_not_come(rt: HostRuntime) {
    assert_eq!(rt; first_wrong(rt.alloc(), &SCHEDULES), None);
}

static OTHERS: [Run<'static>; 4] = [
    // A frame has a MAC for each of 1 to 10 receivers.
    Run {
        world: TEN,
        parts: &[Part::Lines(&["seal r9 r0,r1,r2,r3,r4,r5,r6,r7,r8,c0 00"])],
        refused: None,
        checks: &[Check::NobodyStops],
    },
    Run {
        world: TEN,
        parts: &[Part::Lines(&["seal r9 r0,r1,r2,r3,r4,r5,r6,r7,r8,r9,c0 00"])],
        refused: Some(0),
        checks: &[Check::NobodyStops],
    },
    FOR_NOBODY,
    TOLD,
];

#[test]
fn refused_frames_and_reports(rt: HostRuntime) {
    come_out(&rt, rt.alloc(), &OTHERS);
}

const FOR_NOBODY: Run<'static> = Run {
    world: BACKUP_AND_CLIENT,
    parts: &[Part::ForNobody],
    refused: Some(0),
    checks: &[Check::NobodyStops],
};

// The report comes with the refusal of the last step. Client 0's call was answered before the step that may not come.
const TOLD: Run<'static> = Run {
    world: BACKUP_AND_CLIENT,
    parts: &[Part::Lines(&["invoke 0 out (1)", "flush", "tick r3"])],
    refused: Some(2),
    checks: &[Check::Accepts(&[(0, 1, "done")]), Check::PointCount(1)],
};
