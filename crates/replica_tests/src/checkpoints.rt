//! Checkpoints: the own one at each multiple of the period, those that come, and parts of the states that are kept.

use crate::answers::holds;
use crate::frames::Sent;
use crate::replicas::{Given, Row, runs};
use crate::states::{At, PAGE, ROOT, State, root_of};

const ONE: State = State::Behind(1);

const INNER_16: At = (1, 16);

const FIRST_PAGE: At = (PAGE, 0);

const FIRST_REPLY: At = (PAGE, 256);

const HEADER: At = (PAGE, 512);

// The root of the state after `out (1)` of client 0. It was computed by Python's hashlib, where pages = [b''] * 1024,
// one = (1).to_bytes(8, 'big'), pages[0] = bytes(8) + b'\x01\x01' + one, pages[256] = one + one + b'1' and
// pages[512] = b'\x01' + one + one:
//   H = lambda text: hashlib.sha256(text).digest()
//   parts = [H(b''.join(H(page) for page in pages[32 * j:32 * j + 32])) for j in range(32)]
//   root = H(b''.join(parts))
const ROOT_OF_ONE: [u8; 32] = [
    0x96, 0xd4, 0xc2, 0x45, 0x5c, 0x93, 0xd6, 0xd3, 0xe2, 0x04, 0xab, 0xd1, 0xd3, 0x28, 0xe2, 0x45,
    0x4c, 0x6a, 0x54, 0xca, 0x70, 0x64, 0xd0, 0x84, 0x4c, 0x7c, 0x78, 0xb0, 0x2f, 0x8b, 0x62, 0x99,
];

#[test]
fn a_worked_root(rt: HostRuntime) {
    holds(&rt, root_of(rt.alloc(), ONE).is(&ROOT_OF_ONE));
}

// With a period of 2 number 1 has no checkpoint, and number 2 has one.
static SECOND_AT_BACKUP: [Row<'static>; 8] = [
    (Sent::PrePrepare(1), &[Given::Sends(Sent::Prepare(1, 1))]),
    (Sent::Prepare(1, 2), &[Given::Sends(Sent::Commit(1, 1))]),
    (Sent::Commit(1, 2), &[]),
    (
        Sent::Commit(1, 3),
        &[Given::Executes(1), Given::Sends(Sent::Reply(1, 1))],
    ),
    (Sent::PrePrepare(2), &[Given::Sends(Sent::Prepare(2, 1))]),
    (Sent::Prepare(2, 2), &[Given::Sends(Sent::Commit(2, 1))]),
    (Sent::Commit(2, 2), &[]),
    (
        Sent::Commit(2, 3),
        &[
            Given::Executes(2),
            Given::Sends(Sent::Reply(2, 1)),
            Given::Sends(Sent::Checkpoint(2, State::Behind(2), 1)),
        ],
    ),
];

// And the primary, to which the requests come.
static SECOND_AT_PRIMARY: [Row<'static>; 10] = [
    (Sent::Request(1), &[Given::Sends(Sent::PrePrepare(1))]),
    (Sent::Request(2), &[Given::Sends(Sent::PrePrepare(2))]),
    (Sent::Prepare(1, 1), &[]),
    (Sent::Prepare(1, 2), &[Given::Sends(Sent::Commit(1, 0))]),
    (Sent::Commit(1, 1), &[]),
    (
        Sent::Commit(1, 2),
        &[Given::Executes(1), Given::Sends(Sent::Reply(1, 0))],
    ),
    (Sent::Prepare(2, 1), &[]),
    (Sent::Prepare(2, 2), &[Given::Sends(Sent::Commit(2, 0))]),
    (Sent::Commit(2, 1), &[]),
    (
        Sent::Commit(2, 2),
        &[
            Given::Executes(2),
            Given::Sends(Sent::Reply(2, 0)),
            Given::Sends(Sent::Checkpoint(2, State::Behind(2), 0)),
        ],
    ),
];

// Once number 2 is stable, the low mark is 2. Of the kept states the opening one is given up, and that after number 2
// stays, for whoever asks.
static IS_MARKED_AT_BACKUP: [Row<'static>; 6] = [
    (Sent::Checkpoint(2, State::Behind(2), 0), &[]),
    (
        Sent::Fetch(0, ROOT, 3),
        &[Given::Sends(Sent::Part(0, State::Behind(0), ROOT, 1, 3))],
    ),
    (Sent::Checkpoint(2, State::Behind(2), 3), &[]),
    (Sent::Fetch(0, ROOT, 3), &[]),
    (Sent::Fetch(1, ROOT, 3), &[]),
    (
        Sent::Fetch(2, ROOT, 3),
        &[Given::Sends(Sent::Part(2, State::Behind(2), ROOT, 1, 3))],
    ),
];

static IS_MARKED_AT_PRIMARY: [Row<'static>; 6] = [
    (Sent::Checkpoint(2, State::Behind(2), 1), &[]),
    (
        Sent::Fetch(0, ROOT, 3),
        &[Given::Sends(Sent::Part(0, State::Behind(0), ROOT, 0, 3))],
    ),
    (Sent::Checkpoint(2, State::Behind(2), 3), &[]),
    (Sent::Fetch(0, ROOT, 3), &[]),
    (Sent::Fetch(1, ROOT, 3), &[]),
    (
        Sent::Fetch(2, ROOT, 3),
        &[Given::Sends(Sent::Part(2, State::Behind(2), ROOT, 0, 3))],
    ),
];

// With a period of 1 each number has a checkpoint. Until a quorum has it, the opening state is kept beside it. Of a
// sender's checkpoints for a number the first counts, and once. When it is stable, the opening state is given up.
pub static BECOMES_STABLE: [Row<'static>; 21] = [
    (Sent::PrePrepare(1), &[Given::Sends(Sent::Prepare(1, 1))]),
    (Sent::Prepare(1, 2), &[Given::Sends(Sent::Commit(1, 1))]),
    (Sent::Commit(1, 2), &[]),
    (Sent::Fetch(1, ROOT, 2), &[]),
    (
        Sent::Commit(1, 3),
        &[
            Given::Executes(1),
            Given::Sends(Sent::Reply(1, 1)),
            Given::Sends(Sent::Checkpoint(1, ONE, 1)),
        ],
    ),
    (
        Sent::Fetch(0, ROOT, 2),
        &[Given::Sends(Sent::Part(0, State::Behind(0), ROOT, 1, 2))],
    ),
    (
        Sent::Fetch(1, ROOT, 3),
        &[Given::Sends(Sent::Part(1, ONE, ROOT, 1, 3))],
    ),
    (Sent::Checkpoint(1, ONE, 2), &[]),
    (Sent::Checkpoint(1, ONE, 2), &[]),
    (Sent::Checkpoint(1, State::NoState, 3), &[]),
    (Sent::Checkpoint(1, ONE, 3), &[]),
    (
        Sent::Fetch(0, INNER_16, 3),
        &[Given::Sends(Sent::Part(0, State::Behind(0), INNER_16, 1, 3))],
    ),
    (Sent::Checkpoint(1, ONE, 0), &[]),
    (Sent::Fetch(0, ROOT, 2), &[]),
    (Sent::Fetch(0, FIRST_PAGE, 2), &[]),
    (Sent::Fetch(2, ROOT, 2), &[]),
    (
        Sent::Fetch(1, INNER_16, 0),
        &[Given::Sends(Sent::Part(1, ONE, INNER_16, 1, 0))],
    ),
    (
        Sent::Fetch(1, FIRST_PAGE, 2),
        &[Given::Sends(Sent::Part(1, ONE, FIRST_PAGE, 1, 2))],
    ),
    (
        Sent::Fetch(1, FIRST_PAGE, 2),
        &[Given::Sends(Sent::Part(1, ONE, FIRST_PAGE, 1, 2))],
    ),
    (
        Sent::Fetch(1, FIRST_REPLY, 3),
        &[Given::Sends(Sent::Part(1, ONE, FIRST_REPLY, 1, 3))],
    ),
    (
        Sent::Fetch(1, HEADER, 0),
        &[Given::Sends(Sent::Part(1, ONE, HEADER, 1, 0))],
    ),
];

// Checkpoints that came before: the own one makes it stable at once.
static STABLE_AT_ONCE: [Row<'static>; 9] = [
    (Sent::Checkpoint(1, ONE, 0), &[]),
    (Sent::Checkpoint(1, ONE, 3), &[]),
    (Sent::PrePrepare(1), &[Given::Sends(Sent::Prepare(1, 1))]),
    (Sent::Prepare(1, 2), &[Given::Sends(Sent::Commit(1, 1))]),
    (Sent::Commit(1, 2), &[]),
    (
        Sent::Fetch(0, ROOT, 2),
        &[Given::Sends(Sent::Part(0, State::Behind(0), ROOT, 1, 2))],
    ),
    (
        Sent::Commit(1, 3),
        &[
            Given::Executes(1),
            Given::Sends(Sent::Reply(1, 1)),
            Given::Sends(Sent::Checkpoint(1, ONE, 1)),
        ],
    ),
    (Sent::Fetch(0, ROOT, 2), &[]),
    (
        Sent::Fetch(1, ROOT, 2),
        &[Given::Sends(Sent::Part(1, ONE, ROOT, 1, 2))],
    ),
];

// Of a sender the three of largest number are kept: replica 3's fourth one doesn't count.
static FOURTH: [Row<'static>; 12] = [
    (Sent::PrePrepare(1), &[Given::Sends(Sent::Prepare(1, 1))]),
    (Sent::Prepare(1, 2), &[Given::Sends(Sent::Commit(1, 1))]),
    (Sent::Commit(1, 2), &[]),
    (
        Sent::Commit(1, 3),
        &[
            Given::Executes(1),
            Given::Sends(Sent::Reply(1, 1)),
            Given::Sends(Sent::Checkpoint(1, ONE, 1)),
        ],
    ),
    (Sent::Checkpoint(6, ONE, 3), &[]),
    (Sent::Checkpoint(5, ONE, 3), &[]),
    (Sent::Checkpoint(7, ONE, 3), &[]),
    (Sent::Checkpoint(1, ONE, 3), &[]),
    (Sent::Checkpoint(1, ONE, 2), &[]),
    (
        Sent::Fetch(0, ROOT, 2),
        &[Given::Sends(Sent::Part(0, State::Behind(0), ROOT, 1, 2))],
    ),
    (Sent::Checkpoint(1, ONE, 0), &[]),
    (Sent::Fetch(0, ROOT, 2), &[]),
];

// With a period of 1 two numbers are within the marks. The third request gets its number in the event that moves them.
pub static FREES_NUMBERS: [Row<'static>; 10] = [
    (Sent::Request(1), &[Given::Sends(Sent::PrePrepare(1))]),
    (Sent::Request(2), &[Given::Sends(Sent::PrePrepare(2))]),
    (Sent::Request(3), &[]),
    (Sent::Prepare(1, 1), &[]),
    (Sent::Prepare(1, 2), &[Given::Sends(Sent::Commit(1, 0))]),
    (Sent::Commit(1, 1), &[]),
    (
        Sent::Commit(1, 2),
        &[
            Given::Executes(1),
            Given::Sends(Sent::Reply(1, 0)),
            Given::Sends(Sent::Checkpoint(1, ONE, 0)),
        ],
    ),
    (Sent::Checkpoint(1, ONE, 1), &[]),
    (
        Sent::Checkpoint(1, ONE, 3),
        &[Given::Sends(Sent::PrePrepare(3))],
    ),
    (Sent::Checkpoint(1, ONE, 2), &[]),
];

// The waiting request comes again: the latest checkpoint goes out last, also if it is stable.
static GOES_AGAIN: [Row<'static>; 11] = [
    (Sent::PrePrepare(1), &[Given::Sends(Sent::Prepare(1, 1))]),
    (Sent::Prepare(1, 2), &[Given::Sends(Sent::Commit(1, 1))]),
    (Sent::Commit(1, 2), &[]),
    (
        Sent::Commit(1, 3),
        &[
            Given::Executes(1),
            Given::Sends(Sent::Reply(1, 1)),
            Given::Sends(Sent::Checkpoint(1, ONE, 1)),
        ],
    ),
    (Sent::Request(2), &[]),
    (
        Sent::Request(2),
        &[Given::Sends(Sent::Checkpoint(1, ONE, 1))],
    ),
    (Sent::PrePrepare(2), &[Given::Sends(Sent::Prepare(2, 1))]),
    (
        Sent::Request(2),
        &[
            Given::Sends(Sent::Prepare(2, 1)),
            Given::Sends(Sent::Checkpoint(1, ONE, 1)),
        ],
    ),
    (Sent::Checkpoint(1, ONE, 2), &[]),
    (Sent::Checkpoint(1, ONE, 3), &[]),
    (
        Sent::Request(2),
        &[
            Given::Sends(Sent::Prepare(2, 1)),
            Given::Sends(Sent::Checkpoint(1, ONE, 1)),
        ],
    ),
];

// Number 2 has a checkpoint, and then is stable.
#[test]
fn a_checkpoint_at_each_multiple(rt: HostRuntime) {
    holds(
        &rt,
        runs(rt.alloc(), 1, 2, &[&SECOND_AT_BACKUP, &IS_MARKED_AT_BACKUP]),
    );
    holds(
        &rt,
        runs(
            rt.alloc(),
            0,
            2,
            &[&SECOND_AT_PRIMARY, &IS_MARKED_AT_PRIMARY],
        ),
    );
}

#[test]
fn a_stable_checkpoint_moves_the_marks(rt: HostRuntime) {
    holds(&rt, runs(rt.alloc(), 1, 1, &[&BECOMES_STABLE]));
    holds(&rt, runs(rt.alloc(), 1, 1, &[&STABLE_AT_ONCE]));
    holds(&rt, runs(rt.alloc(), 0, 1, &[&FREES_NUMBERS]));
}

#[test]
fn three_checkpoints_of_a_sender(rt: HostRuntime) {
    holds(&rt, runs(rt.alloc(), 1, 1, &[&FOURTH]));
}

#[test]
fn the_latest_checkpoint_goes_again(rt: HostRuntime) {
    holds(&rt, runs(rt.alloc(), 1, 1, &[&GOES_AGAIN]));
}
