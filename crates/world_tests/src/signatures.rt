//! Frames that a faulty replica signs. The SHA-256 of each comes from Python's hashlib and hmac, by docs/formats.md.

use crate::runs::{Check, Part, Run, come_out};
use crate::worlds::BACKUP_AND_ONE_CLIENT;

// Of the bodies 00 ff, 42 and 00, the last signed with leaf 0 and the others with leaf 63.
const OF_TWO: &str = "7132af9a8cc4b49c4390842c895ebe51a84f8f06e7123494d7c6e91215a786d8";

const OF_OTHER: &str = "e265b0b44cf986f617874241405ae7706db409a3ea09b220c4b38a293697e1fd";

const OF_ONE: &str = "de7006b762c9d2af2889b0e036c716241d8ef8f5ef0e57ad3413a9bf950fa454";

// Each frame goes to those that it names and are correct, and to nobody else. A leaf signs as often as it is asked to.
const SIGNED: Run<'static> = Run {
    world: BACKUP_AND_ONE_CLIENT,
    parts: &[Part::Lines(&[
        "sign r3 63 r0,r2,r3 00ff",
        "sign r3 63 r1 42",
        "sign r3 0 c0 00",
        "flush",
    ])],
    refused: None,
    checks: &[Check::Got(&[(0, OF_TWO), (2, OF_TWO), (1, OF_OTHER), (256, OF_ONE)])],
};

// It may also be delivered to others.
const TO_ANOTHER: Run<'static> = Run {
    world: BACKUP_AND_ONE_CLIENT,
    parts: &[Part::Lines(&["sign r3 0 r0 00", "deliver 0 r1", "flush"])],
    refused: None,
    checks: &[Check::Got(&[(1, OF_ONE), (0, OF_ONE)])],
};

static SIGNATURES: [Run<'static>; 2] = [SIGNED, TO_ANOTHER];

#[test]
fn signed_frames_are_got(rt: HostRuntime) {
    come_out(&rt, rt.alloc(), &SIGNATURES);
}
