//! Replica 3 is cut off while the other three carry calls, and fetches the state that they came to. Each second number
//! has a checkpoint.

use crate::reports::{FETCH, NUMBER_ASKED, OF_THREE_RECEIVERS};
use crate::runs::{Check, Part, Run, come_out};
use crate::walks::{CARRIED, CARRIED_TO_CHECKPOINT, CHECKPOINTS, FOUR_PARTS, ONE_PART};
use crate::worlds::ONE_CLIENT_OF_PERIOD_2;

// It fetches number 6, part by part, and is the first that gets a read.
const CATCHING_UP: Part<'static> = Part::Walk(&[
    (0, &["invoke 0 out (1)"], CARRIED),
    (10, &["invoke 0 out (2)"], CARRIED_TO_CHECKPOINT),
    (23, &["invoke 0 out (3)"], CARRIED),
    (33, &["invoke 0 out (4)"], CARRIED_TO_CHECKPOINT),
    (46, &["invoke 0 out (5)"], CARRIED),
    (56, &["invoke 0 out (6)"], CARRIED_TO_CHECKPOINT),
    (56, &[], CHECKPOINTS),
    (69, &[], FOUR_PARTS),
    (77, &[], FOUR_PARTS),
    (85, &[], FOUR_PARTS),
    (93, &["invoke 0 rdAll 64 (*)"], &[(0, 3)]),
]);

// The last frame is replica 3's reply to the read, which is the seventh call, from the state of number 6.
const AT_SIX: &[u8] = b"\x48\0\x03\x01\0\0\0\0\0\0\0\0\x07\x01\0\0\0\0\0\0\0\x06";

// The parts that differ from the opening state: the root, and in three inner parts the pages of six tuples, of client
// 0 and of the header. Each place is the number of the state, the level and the index.
const OF_SIX: Check<'static> = Check::Texts(
    (3, FETCH, NUMBER_ASKED),
    Some(OF_THREE_RECEIVERS),
    &[
        &[6, 0, 0, 0],
        &[6, 1, 0, 0],
        &[6, 2, 0, 0],
        &[6, 2, 0, 1],
        &[6, 2, 0, 2],
        &[6, 2, 0, 3],
        &[6, 2, 0, 4],
        &[6, 2, 0, 5],
        &[6, 1, 0, 8],
        &[6, 2, 1, 0],
        &[6, 1, 0, 16],
        &[6, 2, 2, 0],
    ],
);

// The answer with the header of number 6 is held back while two more calls are carried, whose checkpoints overtake.
// It comes then, and is asked for no more.
const OVERTAKEN: Part<'static> = Part::Walk(&[
    (0, &["invoke 0 out (1)"], CARRIED),
    (10, &["invoke 0 out (2)"], CARRIED_TO_CHECKPOINT),
    (23, &["invoke 0 out (3)"], CARRIED),
    (33, &["invoke 0 out (4)"], CARRIED_TO_CHECKPOINT),
    (46, &["invoke 0 out (5)"], CARRIED),
    (56, &["invoke 0 out (6)"], CARRIED_TO_CHECKPOINT),
    (56, &[], CHECKPOINTS),
    (69, &[], FOUR_PARTS),
    (77, &[], FOUR_PARTS),
    (85, &[], ONE_PART),
    (87, &[], ONE_PART),
    (89, &[], ONE_PART),
    // The answer is frame 92.
    (91, &[], &[(0, 0)]),
    (93, &["invoke 0 out (7)"], CARRIED),
    (103, &["invoke 0 out (8)"], CARRIED_TO_CHECKPOINT),
    (103, &[], CHECKPOINTS),
    (92, &[], &[(0, 3)]),
    (116, &[], FOUR_PARTS),
    (124, &[], FOUR_PARTS),
]);

// The replica asks for twenty parts in all. The tuples of numbers 1 to 6 were fetched before. Then these parts differ
// from number 8, after the root: the pages of two more tuples, and those of client 0 and of the header, which have
// changed.
const OF_SIX_AND_EIGHT: Check<'static> = Check::Texts(
    (3, FETCH, NUMBER_ASKED),
    Some(OF_THREE_RECEIVERS),
    &[
        &[6, 0, 0, 0],
        &[6, 1, 0, 0],
        &[6, 2, 0, 0],
        &[6, 2, 0, 1],
        &[6, 2, 0, 2],
        &[6, 2, 0, 3],
        &[6, 2, 0, 4],
        &[6, 2, 0, 5],
        &[6, 1, 0, 8],
        &[6, 2, 1, 0],
        &[6, 1, 0, 16],
        &[6, 2, 2, 0],
        &[8, 0, 0, 0],
        &[8, 1, 0, 0],
        &[8, 2, 0, 6],
        &[8, 2, 0, 7],
        &[8, 1, 0, 8],
        &[8, 2, 1, 0],
        &[8, 1, 0, 16],
        &[8, 2, 2, 0],
    ],
);

// The next number is 9.
const NINE: Run<'static> = Run {
    world: ONE_CLIENT_OF_PERIOD_2,
    parts: &[
        OVERTAKEN,
        Part::Lines(&[
            "invoke 0 out (9)",
            "flush",
            "invoke 0 rdAll 64 (*)",
            "flush",
        ]),
    ],
    refused: None,
    checks: &[
        OF_SIX_AND_EIGHT,
        Check::Sent(FETCH, 20),
        Check::Installs(8),
        Check::Execute(&[3], &[(9, 1)]),
        Check::Accepts(&[
            (0, 1, "done"),
            (0, 2, "done"),
            (0, 3, "done"),
            (0, 4, "done"),
            (0, 5, "done"),
            (0, 6, "done"),
            (0, 7, "done"),
            (0, 8, "done"),
            (0, 9, "done"),
            (0, 10, "all 9 (1) (2) (3) (4) (5) (6) (7) (8) (9)"),
        ]),
    ],
};

static FETCHED: [Run<'static>; 3] = [
    Run {
        world: ONE_CLIENT_OF_PERIOD_2,
        parts: &[CATCHING_UP],
        refused: None,
        checks: &[Check::Last(3, 4, AT_SIX)],
    },
    // Then all frames of the other three come, and the next call. Replica 3 executes none of the batches that it was
    // cut off from, and it executes number 7.
    Run {
        world: ONE_CLIENT_OF_PERIOD_2,
        parts: &[
            CATCHING_UP,
            Part::Lines(&["flush", "invoke 0 out (7)", "flush"]),
        ],
        refused: None,
        checks: &[
            OF_SIX,
            Check::Sent(FETCH, 12),
            Check::Installs(6),
            Check::Execute(&[3], &[(7, 1)]),
            Check::Accepts(&[
                (0, 1, "done"),
                (0, 2, "done"),
                (0, 3, "done"),
                (0, 4, "done"),
                (0, 5, "done"),
                (0, 6, "done"),
                (0, 7, "all 6 (1) (2) (3) (4) (5) (6)"),
                (0, 8, "done"),
            ]),
        ],
    },
    NINE,
];

#[test]
fn states_are_fetched(rt: HostRuntime) {
    come_out(&rt, rt.alloc(), &FETCHED);
}
