//! Checkpoints, marks that move, and a replica that fetches the state of the others.

use crate::reports::{FETCH, NUMBER_ASKED, OF_THREE_RECEIVERS, PRE_PREPARE};
use crate::runs::{Check, Part, Run, come_out};
use crate::worlds::{
    CLIENT_OF_PERIOD_1, CLIENT_OF_PERIOD_2, ONE_CLIENT_OF_PERIOD_2, THREE_CLIENTS_OF_PERIOD_1,
};

// A call has 51 entries. At number 2 four checkpoints are sent, and each is got by three others.
const TWO: Run<'static> = Run {
    world: ONE_CLIENT_OF_PERIOD_2,
    parts: &[Part::Lines(&["invoke 0 out (1)", "flush", "invoke 0 out (2)", "flush"])],
    refused: None,
    checks: &[Check::Entries(2 * 51 + 4 + 12)],
};

// Three clients' requests come to the primary.
const THREE: Part<'static> = Part::Lines(&[
    "invoke 0 out (1)",
    "invoke 1 out (2)",
    "invoke 2 out (3)",
    "deliver 0 r0",
    "deliver 1 r0",
    "deliver 2 r0",
]);

static NUMBERED: [Run<'static>; 3] = [
    TWO,
    // With a period of 1 there are two numbers for them. When number 1 is stable, there is one for the third.
    Run {
        world: THREE_CLIENTS_OF_PERIOD_1,
        parts: &[THREE],
        refused: None,
        checks: &[Check::Sent(PRE_PREPARE, 2)],
    },
    Run {
        world: THREE_CLIENTS_OF_PERIOD_1,
        parts: &[THREE, Part::Lines(&["flush"])],
        refused: None,
        checks: &[
            Check::Sent(PRE_PREPARE, 3),
            Check::Execute(&[0, 1, 2, 3], &[(1, 1), (2, 1), (3, 1)]),
            Check::Accepts(&[(0, 1, "done"), (1, 1, "done"), (2, 1, "done")]),
        ],
    },
];

#[test]
fn numbers_and_checkpoints(rt: HostRuntime) {
    come_out(&rt, rt.alloc(), &NUMBERED);
}

// Client 1, which is faulty, makes the request `out (5)` with MACs for replicas 0, 1 and 2 alone. So replica 3 doesn't
// take its batch, and lags.
const FOR_THREE: Part<'static> = Part::Lines(&[
    "seal c1 r0,r1,r2 4101010000000000000001002101010000000000000005",
]);

// The root differs, and in three inner parts the pages of the tuple, of client 1 and of the header. Each place is the
// number of the state, the level and the index.
const OF_ONE: Check<'static> = Check::Texts(
    (3, FETCH, NUMBER_ASKED),
    Some(OF_THREE_RECEIVERS),
    &[
        &[1, 0, 0, 0],
        &[1, 1, 0, 0],
        &[1, 2, 0, 0],
        &[1, 1, 0, 8],
        &[1, 2, 1, 1],
        &[1, 1, 0, 16],
        &[1, 2, 2, 0],
    ],
);

// With a period of 2 it has the next number's batch, but not the one before it, and fetches the state of both.
const OF_TWO: Check<'static> = Check::Texts(
    (3, FETCH, NUMBER_ASKED),
    Some(OF_THREE_RECEIVERS),
    &[
        &[2, 0, 0, 0],
        &[2, 1, 0, 0],
        &[2, 2, 0, 0],
        &[2, 2, 0, 1],
        &[2, 1, 0, 8],
        &[2, 2, 1, 0],
        &[2, 2, 1, 1],
        &[2, 1, 0, 16],
        &[2, 2, 2, 0],
    ],
);

const GOING_ON: Part<'static> = Part::Lines(&[
    "flush",
    "invoke 0 out (6)",
    "flush",
    "invoke 0 out (7)",
    "flush",
    "invoke 0 rdAll 64 (*)",
    "flush",
]);

static LAGGING: [Run<'static>; 2] = [
    // The others execute the batch, and their checkpoints bring replica 3 to fetch the state. Counted by the protocol:
    // the request is got three times; a pre-prepare, two prepares, three commits and three checkpoints are sent, and
    // got 3, 6, 9 and 9 times; there are three executions and three replies to client 1, which is faulty. Each fetch is
    // got three times and answered as often, and each answer is got: of three the first counts. With the installation
    // that is 116 entries.
    Run {
        world: CLIENT_OF_PERIOD_1,
        parts: &[FOR_THREE, Part::Lines(&["flush"])],
        refused: None,
        checks: &[
            Check::Entries(3 + 9 + 27 + 3 + 3 + 7 * (1 + 3 + 3 + 3) + 1),
            OF_ONE,
            Check::Sent(FETCH, 7),
            Check::Installs(1),
            Check::Execute(&[0, 1, 2], &[(1, 1)]),
            Check::Execute(&[3], &[]),
        ],
    },
    // Replica 3 goes on with number 3.
    Run {
        world: CLIENT_OF_PERIOD_2,
        parts: &[FOR_THREE, GOING_ON],
        refused: None,
        checks: &[
            OF_TWO,
            Check::Sent(FETCH, 9),
            Check::Installs(2),
            Check::Execute(&[0, 1, 2], &[(1, 1), (2, 1), (3, 1)]),
            Check::Execute(&[3], &[(3, 1)]),
            Check::Accepts(&[(0, 1, "done"), (0, 2, "done"), (0, 3, "all 3 (5) (6) (7)")]),
        ],
    },
];

#[test]
fn a_replica_that_lags(rt: HostRuntime) {
    come_out(&rt, rt.alloc(), &LAGGING);
}
