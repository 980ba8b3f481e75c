//! A client whose replies were lost asks again, when a later checkpoint is stable: each replica sends the reply that it
//! kept.

use crate::reports::{NUMBER, REPLY};
use crate::runs::{Check, Part, Run, come_out};
use crate::worlds::TWO_CLIENTS_OF_PERIOD_2;

// A call makes 13 frames: the request, the pre-prepare, three prepares and four commits, and four replies, which stay
// on the way here. Those of the second call start at 13, and among its replies, from 22 on, each is followed by the
// checkpoint of number 2: all have it then. Time goes by for client 0, and its frame 30 makes each replica send its
// reply again. The sender of a frame, and who it isn't for, drop it.
//
// The calls' numbers are 1 and 2, and the read is answered from the state of number 2. The late answer acted early,
// and once. The positions come from an implementation in Python.
static ASKING_AGAIN: [Run<'static>; 1] = [Run {
    world: TWO_CLIENTS_OF_PERIOD_2,
    parts: &[
        Part::Lines(&["invoke 0 out (1)"]),
        Part::Frames(0, 9, &[0, 1, 2, 3]),
        Part::Lines(&["invoke 1 out (2)"]),
        Part::Frames(13, 30, &[0, 1, 2, 3]),
        Part::Lines(&[
            "deliver 22 c1",
            "deliver 24 c1",
            "deliver 26 c1",
            "deliver 28 c1",
        ]),
        Part::Lines(&["tick c0"]),
        Part::Frames(30, 31, &[0, 1, 2, 3]),
        Part::Frames(31, 35, &[256]),
        Part::Lines(&["invoke 0 rdAll 64 (*)", "flush"]),
    ],
    refused: None,
    checks: &[
        Check::Texts((0, REPLY, NUMBER), None, &[&[1], &[2], &[1], &[2]]),
        Check::Texts((1, REPLY, NUMBER), None, &[&[1], &[2], &[1], &[2]]),
        Check::Texts((2, REPLY, NUMBER), None, &[&[1], &[2], &[1], &[2]]),
        Check::Texts((3, REPLY, NUMBER), None, &[&[1], &[2], &[1], &[2]]),
        Check::Accepts(&[(1, 1, "done"), (0, 1, "done"), (0, 2, "all 2 (1) (2)")]),
        Check::Points(&[
            (45, 0, 1, "out (1)", "done"),
            (101, 1, 1, "out (2)", "done"),
            (164, 0, 2, "rdAll 64 (*)", "all 2 (1) (2)"),
        ]),
    ],
}];

#[test]
fn kept_replies_are_sent_again(rt: HostRuntime) {
    come_out(&rt, rt.alloc(), &ASKING_AGAIN);
}
