//! Scripts of operations. A space goes on after memory ran out as if nothing had been asked.
//!
//! In a plain run nothing is refused here. `tools/growths` refuses the growth of number N: each test
//! passes at each N.

use space::{PeekFault, Space, Version};
use std::alloc::Global;
use test_bytes::read_op;
use tuple_codec::{Answer, Op, encode_result};

// An operation and its answer, in bytes.
type Step<'a> = (&'a [u8], &'a [u8]);

// Whether the operation of these bytes has this answer. If memory is refused, it is tried a second time.
fn answers(space: &mut Space, alloc: Global, (op, expected): Step<'_>) -> bool {
    match read_op(alloc, op) {
        Some(op) => {
            let answer = applied(space, &op);
            drop(op);
            is_answer(alloc, answer, expected)
        }
        None => false,
    }
}

fn applied_once(space: &mut Space, client: u16, op: &Op<Global>) -> Option<Answer<Global>> {
    if !space.births_left() {
        return None;
    }
    space.apply(client, op).ok()
}

fn applied(space: &mut Space, op: &Op<Global>) -> Option<Answer<Global>> {
    let count = space.count();
    match applied_once(space, 0, op) {
        Some(answer) => Some(answer),
        None if space.count() == count => applied_once(space, 0, op),
        None => None,
    }
}

// Whether there is an answer, and it is spelled so.
fn is_answer(alloc: Global, answer: Option<Answer<Global>>, expected: &[u8]) -> bool {
    match answer {
        Some(answer) => {
            let is_right = is_spelled(alloc, &answer, expected);
            drop(answer);
            is_right
        }
        None => false,
    }
}

fn is_spelled(alloc: Global, answer: &Answer<Global>, expected: &[u8]) -> bool {
    let mut out = Vec::new(alloc);
    let is_written = encode_result(answer, &mut out).is_ok()
        || encode_result(answer, &mut out).is_ok();
    let is_right = is_written && out.as_slice() == expected;
    drop(out);
    is_right
}

// The first step that is answered in another way.
fn first_wrong(space: &mut Space, alloc: Global, steps: &[Step<'_>]) -> Option<usize> {
    for (number, step) in steps.iter().enumerate() {
        if !answers(space, alloc, *step) {
            return Some(number);
        }
    }
    None
}

static OPERATIONS: [Step<'static>; 7] = [
    // out ("k"): done
    (b"\x21\x01\x02\x00\x01k", b"\x31"),
    // cas (?text) (true): swapped false
    (b"\x24\x01\x12\x01\x04\x01", b"\x34\x00"),
    // cas (?bool) (true): swapped true
    (b"\x24\x01\x14\x01\x04\x01", b"\x34\x01"),
    // rdAll 64 (*): all 2 ("k") (true)
    (
        b"\x25\x40\x01\x10",
        b"\x35\x02\x01\x02\x00\x01k\x01\x04\x01",
    ),
    // rdp (*): found ("k")
    (b"\x22\x01\x10", b"\x32\x01\x02\x00\x01k"),
    // inp (*): found ("k")
    (b"\x23\x01\x10", b"\x32\x01\x02\x00\x01k"),
    // rdp (?text): absent
    (b"\x22\x01\x12", b"\x33"),
];

// A space of version 1 refuses an operation that has a wide number or asks for one, and stays as it was.
static REFUSED: [Step<'static>; 9] = [
    // out (w1): refused
    (b"\x21\x01\x06\0\0\0\0\0\0\0\0\0\0\0\0\0\0\0\x01", b"\x37"),
    // out ("k"): done
    (b"\x21\x01\x02\x00\x01k", b"\x31"),
    // inp ((?wide) *), rdp (?wide), inp (?wide): refused
    (b"\x23\x02\x05\x01\x16\x10", b"\x37"),
    (b"\x22\x01\x16", b"\x37"),
    (b"\x23\x01\x16", b"\x37"),
    // cas (?bool) ((w1)): refused
    (
        b"\x24\x01\x14\x01\x05\x01\x06\0\0\0\0\0\0\0\0\0\0\0\0\0\0\0\x01",
        b"\x37",
    ),
    // cas (?wide) (true): refused
    (b"\x24\x01\x16\x01\x04\x01", b"\x37"),
    // rdAll 64 (?wide): refused
    (b"\x25\x40\x01\x16", b"\x37"),
    // rdAll 64 (*): all 1 ("k")
    (b"\x25\x40\x01\x10", b"\x35\x01\x01\x02\x00\x01k"),
];

#[test]
fn version_1_refuses_wide_numbers(rt: HostRuntime) {
    let mut space = Space::new(rt.alloc());
    let wrong = first_wrong(&mut space, rt.alloc(), REFUSED.as_slice());
    // rdp (?wide)
    let is_refused = peeks(&space, rt.alloc(), b"\x22\x01\x16", b"\x37");
    // inp (?wide) is no read.
    let is_no_read = looks_only(&space, rt.alloc(), b"\x23\x01\x16");
    drop(space);
    assert_eq!(rt; wrong, None);
    assert!(rt; is_refused);
    assert!(rt; is_no_read);
}

// Whether a look at the space refuses the operation, since it is no read.
fn looks_only(space: &Space, alloc: Global, op: &[u8]) -> bool {
    match read_op(alloc, op) {
        Some(op) => {
            let is_refused = is_no_read(space, &op);
            drop(op);
            is_refused
        }
        None => false,
    }
}

fn is_no_read(space: &Space, op: &Op<Global>) -> bool {
    matches!(space.peek(op), Err(PeekFault::NotReadOnly))
}

// Whether the client's upgrade is answered so, and leaves this version.
fn upgrades(
    space: &mut Space,
    alloc: Global,
    client: u16,
    expected: &[u8],
    version: Version,
) -> bool {
    match read_op(alloc, b"\x27") {
        Some(op) => {
            let answer = applied_once(space, client, &op);
            drop(op);
            is_answer(alloc, answer, expected) && space.version() == version
        }
        None => false,
    }
}

// Done for client 0, and refused to all others.
fn upgrade_in_turn(space: &mut Space, alloc: Global) -> bool {
    upgrades(space, alloc, 1, b"\x37", Version::One)
        && upgrades(space, alloc, 0, b"\x31", Version::Two)
        && upgrades(space, alloc, 255, b"\x37", Version::Two)
        && upgrades(space, alloc, 0, b"\x31", Version::Two)
}

#[test]
fn client_0_upgrades(rt: HostRuntime) {
    let mut space = Space::new(rt.alloc());
    let is_right = upgrade_in_turn(&mut space, rt.alloc());
    // An upgrade is no read.
    let is_no_read = looks_only(&space, rt.alloc(), b"\x27");
    drop(space);
    assert!(rt; is_right);
    assert!(rt; is_no_read);
}

#[test]
fn operations_in_ordinary_memory(rt: HostRuntime) {
    let mut space = Space::new(rt.alloc());
    let wrong = first_wrong(&mut space, rt.alloc(), OPERATIONS.as_slice());
    drop(space);
    assert_eq!(rt; wrong, None);
}

static SCRIPT: [Step<'static>; 7] = [
    // out (1): done, twice
    (b"\x21\x01\x01\0\0\0\0\0\0\0\x01", b"\x31"),
    (b"\x21\x01\x01\0\0\0\0\0\0\0\x01", b"\x31"),
    // inp (?int): found (1)
    (b"\x23\x01\x11", b"\x32\x01\x01\0\0\0\0\0\0\0\x01"),
    // rdAll 64 (*): all 1 (1)
    (READ_ALL, b"\x35\x01\x01\x01\0\0\0\0\0\0\0\x01"),
    // rdp (): absent
    (b"\x22\0", b"\x33"),
    // cas (?int) (2): swapped false
    (b"\x24\x01\x11\x01\x01\0\0\0\0\0\0\0\x02", b"\x34\0"),
    // cas () (2): swapped true
    (b"\x24\0\x01\x01\0\0\0\0\0\0\0\x02", b"\x34\x01"),
];

// rdAll 64 (*), and the answer after the script: all 2 (1) (2)
const READ_ALL: &[u8] = b"\x25\x40\x01\x10";

const BOTH: &[u8] = b"\x35\x02\x01\x01\0\0\0\0\0\0\0\x01\x01\x01\0\0\0\0\0\0\0\x02";

// Whether a look at the space gives this answer, at the second try if memory ran out at the first one.
fn peeks(space: &Space, alloc: Global, op: &[u8], expected: &[u8]) -> bool {
    match read_op(alloc, op) {
        Some(op) => {
            let answer = peeked(space, &op);
            drop(op);
            is_answer(alloc, answer, expected)
        }
        None => false,
    }
}

fn peeked(space: &Space, op: &Op<Global>) -> Option<Answer<Global>> {
    match space.peek(op) {
        Ok(answer) => Some(answer),
        Err(_) => space.peek(op).ok(),
    }
}

#[test]
fn answers_of_a_script(rt: HostRuntime) {
    let mut space = Space::new(rt.alloc());
    let wrong = first_wrong(&mut space, rt.alloc(), SCRIPT.as_slice());
    let is_read = peeks(&space, rt.alloc(), READ_ALL, BOTH);
    let count = space.count();
    drop(space);
    assert_eq!(rt; wrong, None);
    assert!(rt; is_read);
    assert_eq!(rt; count, 2);
}
