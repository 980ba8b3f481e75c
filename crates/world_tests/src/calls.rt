//! Runs in which all are correct. The positions of points in longer traces come from an implementation in Python.

use crate::runs::{Check, Part, Run, come_out};
use crate::worlds::{ONE_CLIENT, TWENTY_CLIENTS, TWO_CLIENTS};

// Counted by the protocol: a request, a pre-prepare, three prepares, four commits and four replies are sent, and got 4,
// 3, 9, 12 and 4 times; with the call, four executions and the acceptance there are 51 entries. Frames are got in the
// order in which they were made. A backup commits with a second prepare beside its own, the primary with two, and each
// executes with two commits beside its own. The third of equal replies ends the call.
//
// A read has 15: the call, its request, 4 receipts of that, 4 replies that are sent at once, 4 replies that are
// received, and the acceptance after the third of these.
//
// A write acts when a third replica executes it. A read acts when it is called if all replicas have executed the state
// that it reads.
const WRITE_AND_READ: Run<'static> = Run {
    world: ONE_CLIENT,
    parts: &[Part::Lines(&["invoke 0 out (1)", "flush", "invoke 0 rdp (*)", "flush"])],
    refused: None,
    checks: &[
        Check::Entries(51 + 15),
        Check::ExecutesAt(&[(30, 0), (33, 1), (38, 2), (41, 3)]),
        Check::Execute(&[0, 1, 2, 3], &[(1, 1)]),
        Check::Accepts(&[(0, 1, "done"), (0, 2, "found (1)")]),
        Check::AcceptedAt(&[49, 64]),
        Check::Points(&[
            (38, 0, 1, "out (1)", "done"),
            (51, 0, 2, "rdp (*)", "found (1)"),
        ]),
    ],
};

static CASES: [Run<'static>; 7] = [
    WRITE_AND_READ,
    Run {
        world: TWO_CLIENTS,
        parts: &[Part::Lines(&[])],
        refused: None,
        checks: &[Check::Accepts(&[]), Check::Points(&[])],
    },
    Run {
        world: TWO_CLIENTS,
        parts: &[Part::Lines(&["invoke 0 out (1)", "tick c0", "tick r0"])],
        refused: None,
        checks: &[Check::Accepts(&[]), Check::Points(&[])],
    },
    Run {
        world: TWO_CLIENTS,
        parts: &[Part::Lines(&[
            "invoke 0 cas (\"k\" *) (\"k\" 1)",
            "invoke 1 cas (\"k\" *) (\"k\" 2)",
            "flush",
            "invoke 0 rdp (\"k\" *)",
            "flush",
        ])],
        refused: None,
        checks: &[
            Check::Accepts(&[
                (0, 1, "swapped true"),
                (1, 1, "swapped false"),
                (0, 2, "found (\"k\" 1)"),
            ]),
            Check::Points(&[
                (64, 0, 1, "cas (\"k\" *) (\"k\" 1)", "swapped true"),
                (84, 1, 1, "cas (\"k\" *) (\"k\" 2)", "swapped false"),
                (102, 0, 2, "rdp (\"k\" *)", "found (\"k\" 1)"),
            ]),
        ],
    },
    Run {
        world: TWO_CLIENTS,
        parts: &[Part::Lines(&[
            "invoke 0 out (1)",
            "flush",
            "invoke 0 inp (?int)",
            "flush",
            "invoke 1 rdp (*)",
            "flush",
        ])],
        refused: None,
        checks: &[
            Check::Accepts(&[(0, 1, "done"), (0, 2, "found (1)"), (1, 1, "absent")]),
            Check::Points(&[
                (38, 0, 1, "out (1)", "done"),
                (89, 0, 2, "inp (?int)", "found (1)"),
                (102, 1, 1, "rdp (*)", "absent"),
            ]),
        ],
    },
    // The space is one of version 1.
    Run {
        world: TWO_CLIENTS,
        parts: &[Part::Lines(&[
            "invoke 0 out (w1)",
            "flush",
            "invoke 0 inAll 2 (*)",
            "flush",
            "invoke 1 rdp (?wide)",
            "flush",
        ])],
        refused: None,
        checks: &[
            Check::Accepts(&[(0, 1, "refused"), (0, 2, "refused"), (1, 1, "refused")]),
            Check::Points(&[
                (38, 0, 1, "out (w1)", "refused"),
                (89, 0, 2, "inAll 2 (*)", "refused"),
                (102, 1, 1, "rdp (?wide)", "refused"),
            ]),
        ],
    },
    // Client 0 alone upgrades it, and for all clients.
    Run {
        world: TWO_CLIENTS,
        parts: &[Part::Lines(&[
            "invoke 1 upgrade",
            "flush",
            "invoke 1 out (w1)",
            "flush",
            "invoke 0 upgrade",
            "flush",
            "invoke 1 out (w1)",
            "flush",
            "invoke 1 rdp (?wide)",
            "flush",
        ])],
        refused: None,
        checks: &[
            Check::Accepts(&[
                (1, 1, "refused"),
                (1, 2, "refused"),
                (0, 1, "done"),
                (1, 3, "done"),
                (1, 4, "found (w1)"),
            ]),
            Check::Points(&[
                (38, 1, 1, "upgrade", "refused"),
                (89, 1, 2, "out (w1)", "refused"),
                (140, 0, 1, "upgrade", "done"),
                (191, 1, 3, "out (w1)", "done"),
                (204, 1, 4, "rdp (?wide)", "found (w1)"),
            ]),
        ],
    },
];

#[test]
fn answers(rt: HostRuntime) {
    come_out(&rt, rt.alloc(), &CASES);
}

// A call whose frames are delivered twice and backwards: those of each kind that were made, the last one first, from
// replica 3 down to replica 0 without the sender. The primary numbers the request, and says it again when it gets the
// request again: frames 1 and 2. Replicas 3, 2 and 1 prepare in this order, by frames 3, 4 and 5. With a prepare beside
// its own each of them commits in this order too, and replica 0 with two, by frames 6 to 9. So they execute, and reply
// by frames 10 to 13.
const CALL: Part<'static> = Part::Lines(&["invoke 0 out (1)"]);

const BACKWARDS: Part<'static> = Part::Walk(&[(
    0,
    &[],
    &[
        (0, 3),
        (0, 3),
        (0, 2),
        (0, 2),
        (0, 1),
        (0, 1),
        (0, 0),
        (0, 0),
        (2, 3),
        (2, 3),
        (2, 2),
        (2, 2),
        (2, 1),
        (2, 1),
        (1, 3),
        (1, 3),
        (1, 2),
        (1, 2),
        (1, 1),
        (1, 1),
        (5, 3),
        (5, 3),
        (5, 2),
        (5, 2),
        (5, 0),
        (5, 0),
        (4, 3),
        (4, 3),
        (4, 1),
        (4, 1),
        (4, 0),
        (4, 0),
        (3, 2),
        (3, 2),
        (3, 1),
        (3, 1),
        (3, 0),
        (3, 0),
        (9, 3),
        (9, 3),
        (9, 2),
        (9, 2),
        (9, 1),
        (9, 1),
        (8, 3),
        (8, 3),
        (8, 2),
        (8, 2),
        (8, 0),
        (8, 0),
        (7, 3),
        (7, 3),
        (7, 1),
        (7, 1),
        (7, 0),
        (7, 0),
        (6, 2),
        (6, 2),
        (6, 1),
        (6, 1),
        (6, 0),
        (6, 0),
        (13, 256),
        (13, 256),
        (12, 256),
        (12, 256),
        (11, 256),
        (11, 256),
        (10, 256),
        (10, 256),
    ],
)]);

// The steps after that call, whose tuple is there once.
static BEHIND: [Run<'static>; 3] = [
    Run {
        world: ONE_CLIENT,
        parts: &[CALL, BACKWARDS],
        refused: None,
        checks: &[
            Check::Accepts(&[(0, 1, "done")]),
            Check::Points(&[(68, 0, 1, "out (1)", "done")]),
        ],
    },
    Run {
        world: ONE_CLIENT,
        parts: &[CALL, BACKWARDS, Part::Lines(&["flush"])],
        refused: None,
        checks: &[
            Check::Accepts(&[(0, 1, "done")]),
            Check::Points(&[(68, 0, 1, "out (1)", "done")]),
        ],
    },
    Run {
        world: ONE_CLIENT,
        parts: &[
            CALL,
            BACKWARDS,
            Part::Lines(&["flush", "invoke 0 rdAll 64 (*)", "flush"]),
        ],
        refused: None,
        checks: &[
            Check::Accepts(&[(0, 1, "done"), (0, 2, "all 1 (1)")]),
            Check::Points(&[
                (68, 0, 1, "out (1)", "done"),
                (90, 0, 2, "rdAll 64 (*)", "all 1 (1)"),
            ]),
        ],
    },
];

#[test]
fn frames_that_come_twice_and_backwards(rt: HostRuntime) {
    come_out(&rt, rt.alloc(), &BEHIND);
}

const ALL: &str =
    "all 20 (0) (1) (2) (3) (4) (5) (6) (7) (8) (9) (10) (11) (12) (13) (14) (15) (16) (17) (18) (19)";

// Calls of 20 clients, and then a read of all that they put in. While numbers 1 and 2 are on their way no other one is
// free; then 16 requests fit into a batch.
const TWENTY: Run<'static> = Run {
    world: TWENTY_CLIENTS,
    parts: &[
        Part::Lines(&[
            "invoke 0 out (0)",
            "invoke 1 out (1)",
            "invoke 2 out (2)",
            "invoke 3 out (3)",
            "invoke 4 out (4)",
            "invoke 5 out (5)",
            "invoke 6 out (6)",
            "invoke 7 out (7)",
            "invoke 8 out (8)",
            "invoke 9 out (9)",
            "invoke 10 out (10)",
            "invoke 11 out (11)",
            "invoke 12 out (12)",
            "invoke 13 out (13)",
            "invoke 14 out (14)",
            "invoke 15 out (15)",
            "invoke 16 out (16)",
            "invoke 17 out (17)",
            "invoke 18 out (18)",
            "invoke 19 out (19)",
        ]),
        Part::Lines(&["flush", "invoke 0 rdAll 64 (*)", "flush"]),
    ],
    refused: None,
    checks: &[
        Check::Execute(&[0, 1, 2, 3], &[(1, 1), (2, 1), (3, 16), (4, 2)]),
        Check::DoneAndRead(20, (0, 2, ALL)),
        Check::PointCount(21),
    ],
};

// The marks reach 32 numbers, and move with each checkpoint. An unanswered call would end the calls of the client.
const MANY: Run<'static> = Run {
    world: ONE_CLIENT,
    parts: &[Part::Repeated(70, &["invoke 0 out (1)", "flush"])],
    refused: None,
    checks: &[Check::Accepted(70)],
};

static MANY_CALLS: [Run<'static>; 2] = [TWENTY, MANY];

#[test]
fn many_calls(rt: HostRuntime) {
    come_out(&rt, rt.alloc(), &MANY_CALLS);
}
