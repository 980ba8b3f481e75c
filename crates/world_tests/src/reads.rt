//! Reads while a write is under way, reads that are asked for twice, and requests of a client that replicas don't
//! answer. The positions of points come from an implementation in Python.

use crate::reports::{MODE, REQUEST};
use crate::runs::{Check, Part, Run, come_out};
use crate::worlds::{BACKUP_AND_TWO_CLIENTS, CLIENT, TWO_CLIENTS};

// The modes of a request: that it is answered at once, and in the order.
const READ_ONLY: &[u8] = &[1];

const ORDERED: &[u8] = &[0];

// Client 0 puts a tuple. The primary and two backups come to commit it, and with their commits replica 0 executes it.
// Its reply is frame 7.
const AT_ONE: Part<'static> = Part::Lines(&[
    "invoke 0 out (1)",
    "deliver 0 r0",
    "deliver 1 r1",
    "deliver 1 r2",
    "deliver 2 r0",
    "deliver 2 r2",
    "deliver 3 r0",
    "deliver 3 r1",
    "deliver 4 r0",
    "deliver 6 r0",
]);

// Replica 3, which is faulty, sends an equal reply.
const LIKE: Part<'static> = Part::Lines(&[
    "seal r3 c0 4800030100000000000000000100000000000000000131",
]);

const BOTH_REPLIES: Part<'static> = Part::Lines(&["deliver 7 c0", "deliver 8 c0"]);

// Client 1 reads at replicas 1 and 2, and replica 3 replies as they do.
const AT_TWO_REPLICAS: Part<'static> = Part::Lines(&[
    "invoke 1 rdp (*)",
    "deliver 9 r1",
    "deliver 9 r2",
]);

const AS_THEY_DO: Part<'static> = Part::Lines(&[
    "seal r3 c1 4800030101000000000000000101000000000000000033",
]);

const THREE_REPLIES: Part<'static> = Part::Lines(&[
    "deliver 10 c1",
    "deliver 11 c1",
    "deliver 12 c1",
]);

// Two equal replies don't end a call. So the read may be answered from the state before the write, and its point is
// before the write's; a later read finds the tuple.
static UNFINISHED: [Run<'static>; 3] = [
    Run {
        world: BACKUP_AND_TWO_CLIENTS,
        parts: &[AT_ONE, LIKE, BOTH_REPLIES],
        refused: None,
        checks: &[Check::Accepts(&[]), Check::Points(&[])],
    },
    Run {
        world: BACKUP_AND_TWO_CLIENTS,
        parts: &[
            AT_ONE,
            LIKE,
            BOTH_REPLIES,
            AT_TWO_REPLICAS,
            AS_THEY_DO,
            THREE_REPLIES,
        ],
        refused: None,
        checks: &[
            Check::Accepts(&[(1, 1, "absent")]),
            Check::Points(&[(21, 1, 1, "rdp (*)", "absent")]),
        ],
    },
    Run {
        world: BACKUP_AND_TWO_CLIENTS,
        parts: &[
            AT_ONE,
            LIKE,
            BOTH_REPLIES,
            AT_TWO_REPLICAS,
            AS_THEY_DO,
            THREE_REPLIES,
            Part::Lines(&["flush", "invoke 1 rdp (*)", "flush"]),
        ],
        refused: None,
        checks: &[
            Check::Accepts(&[(1, 1, "absent"), (0, 1, "done"), (1, 2, "found (1)")]),
            Check::Points(&[
                (21, 1, 1, "rdp (*)", "absent"),
                (35, 0, 1, "out (1)", "done"),
                (47, 1, 2, "rdp (*)", "found (1)"),
            ]),
        ],
    },
];

#[test]
fn a_read_beside_a_write(rt: HostRuntime) {
    come_out(&rt, rt.alloc(), &UNFINISHED);
}

// Replica 1 executes the tuple too, and client 1 reads.
const AT_TWO: Part<'static> = Part::Lines(&["deliver 4 r1", "deliver 5 r1", "invoke 1 rdp (*)"]);

// All replicas answer, two of them from number 1 and two from number 0, and three of the replies are received.
const TWO_AND_TWO: Part<'static> = Part::Lines(&[
    "deliver 9 r0",
    "deliver 9 r1",
    "deliver 9 r2",
    "deliver 9 r3",
    "deliver 10 c1",
    "deliver 11 c1",
    "deliver 12 c1",
]);

static FALLBACKS: [Run<'static>; 5] = [
    // At the fourth reply client 1 asks in the order. Then it accepts the answer of number 2, and the read is there
    // once.
    Run {
        world: TWO_CLIENTS,
        parts: &[AT_ONE, AT_TWO, TWO_AND_TWO],
        refused: None,
        checks: &[
            Check::Texts((257, REQUEST, MODE), None, &[READ_ONLY]),
            Check::Accepts(&[]),
            Check::Points(&[]),
        ],
    },
    Run {
        world: TWO_CLIENTS,
        parts: &[AT_ONE, AT_TWO, TWO_AND_TWO, Part::Lines(&["deliver 13 c1"])],
        refused: None,
        checks: &[
            Check::Texts((257, REQUEST, MODE), None, &[READ_ONLY, ORDERED]),
            Check::Accepts(&[]),
            Check::Points(&[]),
        ],
    },
    Run {
        world: TWO_CLIENTS,
        parts: &[
            AT_ONE,
            AT_TWO,
            TWO_AND_TWO,
            Part::Lines(&["deliver 13 c1", "flush"]),
        ],
        refused: None,
        checks: &[
            Check::Texts((257, REQUEST, MODE), None, &[READ_ONLY, ORDERED]),
            Check::Accepts(&[(0, 1, "done"), (1, 1, "found (1)")]),
            Check::Points(&[
                (50, 0, 1, "out (1)", "done"),
                (104, 1, 1, "rdp (*)", "found (1)"),
            ]),
        ],
    },
    THREE_ANSWERS,
    IN_TIME,
];

#[test]
fn reads_that_fall_back(rt: HostRuntime) {
    come_out(&rt, rt.alloc(), &FALLBACKS);
}

// Replica 3, which is faulty, answers from number 1 too, and differently; replica 2 answers from number 0.
const THREE_ANSWERS: Run<'static> = Run {
    world: BACKUP_AND_TWO_CLIENTS,
    parts: &[
        AT_ONE,
        AT_TWO,
        Part::Lines(&["deliver 9 r0", "deliver 9 r1", "deliver 9 r2"]),
        Part::Lines(&["seal r3 c1 4800030101000000000000000101000000000000000133"]),
        THREE_REPLIES,
        Part::Lines(&["deliver 13 c1", "flush"]),
    ],
    refused: None,
    checks: &[
        Check::Texts((257, REQUEST, MODE), None, &[READ_ONLY, ORDERED]),
        Check::Execute(&[0, 1, 2], &[(1, 1), (2, 1)]),
        Check::Accepts(&[(0, 1, "done"), (1, 1, "found (1)")]),
        Check::Points(&[
            (21, 0, 1, "out (1)", "done"),
            (70, 1, 1, "rdp (*)", "found (1)"),
        ]),
    ],
};

// Time goes by for client 1, and it asks in the order. The replies to its first request end the call all the same, and
// though the read is then executed too, it is there once.
const IN_TIME: Run<'static> = Run {
    world: TWO_CLIENTS,
    parts: &[Part::Lines(&[
        "invoke 0 out (1)",
        "flush",
        "invoke 1 rdp (*)",
        "tick c1",
        "flush",
    ])],
    refused: None,
    checks: &[
        Check::Texts((257, REQUEST, MODE), None, &[READ_ONLY, ORDERED]),
        Check::Execute(&[0, 1, 2, 3], &[(1, 1), (2, 1)]),
        Check::Accepts(&[(0, 1, "done"), (1, 1, "found (1)")]),
        Check::AcceptedAt(&[49, 71]),
        Check::Points(&[
            (38, 0, 1, "out (1)", "done"),
            (51, 1, 1, "rdp (*)", "found (1)"),
        ]),
    ],
};

// All get the request of client 1, which is faulty, twice.
const TWICE: Part<'static> = Part::Lines(&[
    "flush",
    "deliver 0 r0",
    "deliver 0 r1",
    "deliver 0 r2",
    "deliver 0 r3",
]);

// Nobody takes a tuple without an order, or reads a request with a spare byte; and a read is answered by those that it
// has a MAC for.
static ASKED: [Run<'static>; 4] = [
    Run {
        world: CLIENT,
        parts: &[
            Part::Lines(&["seal c1 r0,r1,r2,r3 410101000000000000000101220110"]),
            TWICE,
        ],
        refused: None,
        checks: &[
            Check::Senders(&[0, 1, 2, 3, 0, 1, 2, 3]),
            Check::Execute(&[0, 1, 2, 3], &[]),
        ],
    },
    Run {
        world: CLIENT,
        parts: &[
            Part::Lines(&["seal c1 r1 410101000000000000000101220110"]),
            TWICE,
        ],
        refused: None,
        checks: &[Check::Senders(&[1, 1]), Check::Execute(&[0, 1, 2, 3], &[])],
    },
    Run {
        world: CLIENT,
        parts: &[
            Part::Lines(&["seal c1 r0,r1,r2,r3 410101000000000000000101230110"]),
            TWICE,
        ],
        refused: None,
        checks: &[Check::Senders(&[]), Check::Execute(&[0, 1, 2, 3], &[])],
    },
    Run {
        world: CLIENT,
        parts: &[
            Part::Lines(&["seal c1 r0,r1,r2,r3 410101000000000000000100210101000000000000000100"]),
            TWICE,
        ],
        refused: None,
        checks: &[Check::Senders(&[]), Check::Execute(&[0, 1, 2, 3], &[])],
    },
];

#[test]
fn requests_of_a_faulty_client(rt: HostRuntime) {
    come_out(&rt, rt.alloc(), &ASKED);
}
