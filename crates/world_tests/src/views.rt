//! Runs in which replicas move to later views.

use crate::reports::{COMMIT, NEW_VIEW, VIEW_CHANGE};
use crate::runs::{Check, Part, Run, come_out};
use crate::worlds::{BACKUP_AND_TWO_CLIENTS, ONE_CLIENT, PRIMARY_AND_TWO_CLIENTS, SEVEN};

// Time goes by 65 times at replica 1, while a request waits. Each time except the last, for which it has no key, it
// moves to the next view: the call, its request and its delivery, 65 ticks and 64 view changes.
static SPENDING_KEYS: [Run<'static>; 1] = [Run {
    world: ONE_CLIENT,
    parts: &[
        Part::Lines(&["invoke 0 out (1)", "deliver 0 r1"]),
        Part::Repeated(65, &["tick r1"]),
    ],
    refused: None,
    checks: &[Check::Entries(132), Check::SentBy(1, VIEW_CHANGE, 64)],
}];

#[test]
fn a_replica_that_spends_its_keys(rt: HostRuntime) {
    come_out(&rt, rt.alloc(), &SPENDING_KEYS);
}

// Replica 0, which is faulty, shows replica 1 the request of client 0 as the batch of number 1, and the other two that
// of client 1.
const CALLS: Part<'static> = Part::Lines(&["invoke 0 out (1)", "invoke 1 out (2)"]);

const ONE_FACE: Part<'static> = Part::Lines(&[
    "seal r0 r1 4200000000000000000000000000000000000101000000a5000000174101000000000000000001002101010000000000000001000400007cc28ce19919cf0d141afdbd73eaeb5c738096d541e90c312e97824f26f7281e000122a3ddf970121bf5161d1bda29a94fe1eda4dd5d89bbe015037dd302cd3ba56d00020e767e5925f4fa5bccb6ebbf88f58fccd1b0e163ee0c411c1fb11f33941f9cc90003c65927450584976d7743d4d71457cb0550a08931851e96ade13428416ba0fc09",
]);

const OTHER_FACE: Part<'static> = Part::Lines(&[
    "seal r0 r2,r3 4200000000000000000000000000000000000101000000a50000001741010100000000000000010021010100000000000000020004000058e6640846dec86e047f267654913fbdfb4607dbdee5703a8df5c0093cdf0791000131b44d0fd4af9be26044faa9f8a4d25fcf7e306fa2bab1111ea378385df4d1e800029c4566cedf3f70416981761c54fd1f8ae2e2107c4031c6fd18da17682994f95d000310586f1fc95ccc6a69a6067ec2415b8110ebdc8f0eac68a157025ec97014b7b1",
]);

const FLUSH: Part<'static> = Part::Lines(&["flush"]);

// Then time goes by so often.
const ONCE: Part<'static> = Part::Lines(&["tick r1", "tick r2", "tick r3", "flush"]);

static TWO_FACES: [Run<'static>; 3] = [
    // Nothing is executed.
    Run {
        world: PRIMARY_AND_TWO_CLIENTS,
        parts: &[CALLS, ONE_FACE, OTHER_FACE, FLUSH],
        refused: None,
        checks: &[
            Check::Sent(VIEW_CHANGE, 0),
            Check::Sent(NEW_VIEW, 0),
            Check::Execute(&[1, 2, 3], &[]),
        ],
    },
    // Nobody makes a new view: in view 1 replica 1 would have to, which doesn't have the batch that the other two
    // logged.
    Run {
        world: PRIMARY_AND_TWO_CLIENTS,
        parts: &[CALLS, ONE_FACE, OTHER_FACE, FLUSH, ONCE],
        refused: None,
        checks: &[
            Check::Sent(VIEW_CHANGE, 3),
            Check::Sent(NEW_VIEW, 0),
            Check::Execute(&[1, 2, 3], &[]),
        ],
    },
    // Replica 2 has the batch, and makes the new view of view 2. The second request has number 1 there, and so the
    // first has number 2. Each acts when a second of the three executes it, and the read when it is called. The
    // positions come from an implementation in Python.
    Run {
        world: PRIMARY_AND_TWO_CLIENTS,
        parts: &[
            CALLS,
            ONE_FACE,
            OTHER_FACE,
            FLUSH,
            ONCE,
            ONCE,
            Part::Lines(&["invoke 0 rdAll 64 (*)", "flush"]),
        ],
        refused: None,
        checks: &[
            Check::Sent(VIEW_CHANGE, 6),
            Check::Sent(NEW_VIEW, 1),
            Check::SentBy(2, NEW_VIEW, 1),
            Check::Execute(&[1, 2, 3], &[(1, 1), (2, 1)]),
            Check::Accepts(&[(1, 1, "done"), (0, 1, "done"), (0, 2, "all 2 (2) (1)")]),
            Check::Points(&[
                (83, 1, 1, "out (2)", "done"),
                (95, 0, 1, "out (1)", "done"),
                (108, 0, 2, "rdAll 64 (*)", "all 2 (2) (1)"),
            ]),
        ],
    },
];

#[test]
fn a_primary_with_two_faces(rt: HostRuntime) {
    come_out(&rt, rt.alloc(), &TWO_FACES);
}

// The batch of number 1 is prepared at replicas 0, 1 and 2. Commits of the other two come to replica 0 alone, which
// executes it. Then time goes by at those two.
const PREPARED: Part<'static> = Part::Lines(&[
    "invoke 0 out (1)",
    "deliver 0 r0",
    "deliver 0 r1",
    "deliver 0 r2",
    "deliver 1 r1",
    "deliver 1 r2",
    "deliver 2 r0",
    "deliver 2 r2",
    "deliver 3 r0",
    "deliver 3 r1",
    "deliver 4 r0",
    "deliver 6 r0",
    "tick r1",
    "tick r2",
]);

// Replica 3, which is faulty, says that it prepared another batch for number 1; it says that it logged that one, or
// both.
const LOGGED_ONE: Part<'static> = Part::Lines(&[
    "sign r3 0 r0,r1,r2 460003000000000000000100000000000000000100000000000000002ec67feaf30f6948c24b35e1b161249f4219230bca9dc9310abfecd78bc6b0fd00010000000000000001ffffffffffffffffffffffffffffffffffffffffffffffffffffffffffffffff000000000000000000010000000000000001ffffffffffffffffffffffffffffffffffffffffffffffffffffffffffffffff0000000000000000",
]);

const LOGGED_BOTH: Part<'static> = Part::Lines(&[
    "sign r3 0 r0,r1,r2 460003000000000000000100000000000000000100000000000000002ec67feaf30f6948c24b35e1b161249f4219230bca9dc9310abfecd78bc6b0fd00010000000000000001ffffffffffffffffffffffffffffffffffffffffffffffffffffffffffffffff0000000000000000000200000000000000012612bc6437d0c0d55619d37cce01d5ba39dab22db2f046faf70263bfee401a3100000000000000000000000000000001ffffffffffffffffffffffffffffffffffffffffffffffffffffffffffffffff0000000000000000",
]);

// Replica 1 gets the view changes of replicas 2 and 3.
const OF_THREE: Part<'static> = Part::Lines(&["deliver 9 r1", "deliver 10 r1"]);

// Then replica 0 gets those of replicas 1 and 2, moves with them, and replica 1 gets its own.
const OF_FOUR: Part<'static> = Part::Lines(&["deliver 8 r0", "deliver 9 r0", "deliver 11 r1"]);

// Everybody gets everything, and then client 0 reads.
const TO_THE_END: Part<'static> = Part::Lines(&["flush", "invoke 0 rdAll 64 (*)", "flush"]);

// With the view changes of replicas 1, 2 and 3 there is no new view.
const WAITS: &[Check<'static>] = &[Check::Sent(NEW_VIEW, 0), Check::Sent(VIEW_CHANGE, 2)];

// With that of replica 0 there is one.
const MAKES_A_NEW_VIEW: &[Check<'static>] = &[
    Check::Sent(VIEW_CHANGE, 3),
    Check::Sent(NEW_VIEW, 1),
    Check::SentBy(1, NEW_VIEW, 1),
    Check::Execute(&[0], &[(1, 1)]),
    Check::Execute(&[1, 2], &[]),
];

// Replicas 1 and 2 execute the batch that was executed at replica 0, and nobody does so twice.
const SELECTS_WHAT_WAS_PREPARED: &[Check<'static>] = &[
    Check::Execute(&[0, 1, 2], &[(1, 1)]),
    Check::Accepts(&[(0, 1, "done"), (0, 2, "all 1 (1)")]),
];

static FALSE_SETS: [Run<'static>; 6] = [
    Run {
        world: BACKUP_AND_TWO_CLIENTS,
        parts: &[PREPARED, LOGGED_ONE, OF_THREE],
        refused: None,
        checks: WAITS,
    },
    Run {
        world: BACKUP_AND_TWO_CLIENTS,
        parts: &[PREPARED, LOGGED_ONE, OF_THREE, OF_FOUR],
        refused: None,
        checks: MAKES_A_NEW_VIEW,
    },
    Run {
        world: BACKUP_AND_TWO_CLIENTS,
        parts: &[PREPARED, LOGGED_ONE, OF_THREE, OF_FOUR, TO_THE_END],
        refused: None,
        checks: SELECTS_WHAT_WAS_PREPARED,
    },
    Run {
        world: BACKUP_AND_TWO_CLIENTS,
        parts: &[PREPARED, LOGGED_BOTH, OF_THREE],
        refused: None,
        checks: WAITS,
    },
    Run {
        world: BACKUP_AND_TWO_CLIENTS,
        parts: &[PREPARED, LOGGED_BOTH, OF_THREE, OF_FOUR],
        refused: None,
        checks: MAKES_A_NEW_VIEW,
    },
    Run {
        world: BACKUP_AND_TWO_CLIENTS,
        parts: &[PREPARED, LOGGED_BOTH, OF_THREE, OF_FOUR, TO_THE_END],
        refused: None,
        checks: SELECTS_WHAT_WAS_PREPARED,
    },
];

#[test]
fn an_entry_of_what_was_never_prepared(rt: HostRuntime) {
    come_out(&rt, rt.alloc(), &FALSE_SETS);
}

// The correct ones of seven.
const FIVE: &[u16] = &[0, 3, 4, 5, 6];

// Time goes by at each of them.
const TICKS: Part<'static> = Part::Lines(&["tick r0", "tick r3", "tick r4", "tick r5", "tick r6"]);

// All replicas get the request and its batch, and the prepares of four backups: each commits, and nobody gets the
// commits. So the batch is prepared in view 0. The primaries of views 1 and 2 send nothing. In view 3, which replica
// 3 begins, the same happens. Each of the five moves three times, and commits in views 0 and 3, but nobody executes.
const PREPARED_TWICE: Run<'static> = Run {
    world: SEVEN,
    parts: &[
        Part::Lines(&["invoke 0 out (1)"]),
        Part::Frames(0, 6, FIVE),
        TICKS,
        Part::Frames(11, 16, FIVE),
        TICKS,
        Part::Frames(16, 21, FIVE),
        TICKS,
        Part::Frames(21, 31, FIVE),
    ],
    refused: None,
    checks: &[
        Check::Sent(VIEW_CHANGE, 15),
        Check::SentBy(3, NEW_VIEW, 1),
        Check::Sent(COMMIT, 10),
        Check::Execute(&[0, 3, 4, 5, 6], &[]),
    ],
};

// The new view of view 4 follows the batch prepared in view 3, which followed the one prepared in view 0.
const EXECUTED_IN_VIEW_4: Run<'static> = Run {
    world: SEVEN,
    parts: &[
        Part::Lines(&["invoke 0 out (1)"]),
        Part::Frames(0, 6, FIVE),
        TICKS,
        Part::Frames(11, 16, FIVE),
        TICKS,
        Part::Frames(16, 21, FIVE),
        TICKS,
        Part::Frames(21, 31, FIVE),
        TICKS,
        Part::Lines(&["flush"]),
    ],
    refused: None,
    checks: &[
        Check::Sent(VIEW_CHANGE, 20),
        Check::Sent(NEW_VIEW, 2),
        Check::SentBy(4, NEW_VIEW, 1),
        Check::Execute(&[0, 3, 4, 5, 6], &[(1, 1)]),
        Check::Accepts(&[(0, 1, "done")]),
    ],
};

static VIEW_4: [Run<'static>; 2] = [PREPARED_TWICE, EXECUTED_IN_VIEW_4];

#[test]
fn a_view_change_over_view_changes(rt: HostRuntime) {
    come_out(&rt, rt.alloc(), &VIEW_4);
}
