//! An upgrade of the space that three replicas carry while replica 3 is cut off, and the parts that it then fetches.

use crate::reports::{FETCH, INDEX, NUMBER_ASKED, OF_ONE_RECEIVER, OF_THREE_RECEIVERS, PAGE};
use crate::runs::{Check, Part, Run, come_out};
use crate::walks::{CARRIED, CARRIED_TO_CHECKPOINT, CHECKPOINTS, FOUR_PARTS, ONE_PART};
use crate::worlds::ONE_CLIENT_OF_PERIOD_2;

// All four replicas execute two calls, which make 13 frames each, and four checkpoints. Replica 3 is the first that
// gets a read.
const UPGRADED: Part<'static> = Part::Walk(&[
    (
        0,
        &["invoke 0 out (1)", "flush", "invoke 0 out (2)", "flush"],
        &[],
    ),
    (30, &["invoke 0 upgrade"], CARRIED),
    (40, &["invoke 0 out (w7)"], CARRIED_TO_CHECKPOINT),
    (40, &[], CHECKPOINTS),
    (53, &[], FOUR_PARTS),
    (61, &[], FOUR_PARTS),
    (69, &[], ONE_PART),
    (71, &["invoke 0 rdp (?wide)"], &[(0, 3)]),
]);

// The parts of number 4 in which a state of number 2 differs: an upgrade rewrites the pages of both tuples. Each place
// is the number of the state, the level and the index.
const OF_FOUR: Check<'static> = Check::Texts(
    (3, FETCH, NUMBER_ASKED),
    Some(OF_THREE_RECEIVERS),
    &[
        &[4, 0, 0, 0],
        &[4, 1, 0, 0],
        &[4, 2, 0, 0],
        &[4, 2, 0, 1],
        &[4, 2, 0, 2],
        &[4, 1, 0, 8],
        &[4, 2, 1, 0],
        &[4, 1, 0, 16],
        &[4, 2, 2, 0],
    ],
);

// The pages with which replica 0 answers, each after its index: the tuples with their births and lengths, client 0's
// last reply, and the header.
const PAGES: Check<'static> = Check::Texts(
    (0, PAGE, INDEX),
    Some(OF_ONE_RECEIVER),
    &[
        b"\0\0\0\0\0\0\0\0\0\0\0\x0a\x01\x01\0\0\0\0\0\0\0\x01",
        b"\0\x01\0\0\0\0\0\0\0\x01\0\x0a\x01\x01\0\0\0\0\0\0\0\x02",
        b"\0\x02\0\0\0\0\0\0\0\x02\0\x12\x01\x06\0\0\0\0\0\0\0\0\0\0\0\0\0\0\0\x07",
        b"\x01\0\0\0\0\0\0\0\0\x04\0\0\0\0\0\0\0\x04\x31",
        b"\x02\0\x02\0\0\0\0\0\0\0\x04\0\0\0\0\0\0\0\x03",
    ],
);

// A reply before its MAC: the length, the type, replica 3 and client 0, whose fifth call it is; that it answers a
// read at number 4, and the tuple found, `(w7)`.
const FOUND_AT_FOUR: &[u8] =
    b"\0\0\0\x29\x48\0\x03\x01\0\0\0\0\0\0\0\0\x05\x01\0\0\0\0\0\0\0\x04\x32\x01\x06\0\0\0\0\0\0\0\0\0\0\0\0\0\0\0\x07";

static FETCHED: [Run<'static>; 2] = [
    Run {
        world: ONE_CLIENT_OF_PERIOD_2,
        parts: &[UPGRADED],
        refused: None,
        checks: &[
            OF_FOUR,
            Check::Sent(FETCH, 9),
            PAGES,
            Check::Sent(PAGE, 5),
            Check::Installs(4),
            Check::Last(3, 0, FOUND_AT_FOUR),
        ],
    },
    // Then all that was late comes, and the next number, which is an operation of version 2.
    Run {
        world: ONE_CLIENT_OF_PERIOD_2,
        parts: &[
            UPGRADED,
            Part::Lines(&["flush", "invoke 0 inAll 64 (*)", "flush"]),
        ],
        refused: None,
        checks: &[
            Check::Installs(4),
            Check::Execute(&[0, 1, 2], &[(1, 1), (2, 1), (3, 1), (4, 1), (5, 1)]),
            Check::Execute(&[3], &[(1, 1), (2, 1), (5, 1)]),
            Check::Accepts(&[
                (0, 1, "done"),
                (0, 2, "done"),
                (0, 3, "done"),
                (0, 4, "done"),
                (0, 5, "found (w7)"),
                (0, 6, "all 3 (1) (2) (w7)"),
            ]),
        ],
    },
];

#[test]
fn an_upgrade_is_fetched(rt: HostRuntime) {
    come_out(&rt, rt.alloc(), &FETCHED);
}
