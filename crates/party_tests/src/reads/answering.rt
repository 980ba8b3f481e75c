//! The answers to reads of a space with the tuples ("k") and (true).

use crate::answers::{holds, spells_answer};
use bumpalo::Bump;
use read_only::{ReadFault, ReadRequest, Shelf, answer};
use space::Space;
use std::alloc::Global;
use terms::{ClientId, Mode, NoMemory, Number, Timestamp};
use test_bytes::read_op;
use tuple_codec::{Op, is_op};
use wire::Reply;

static STORED: [&[u8]; 2] = [b"\x21\x01\x02\x00\x01k", b"\x21\x01\x04\x01"];

const NUMBER: Number = Number(17);

/// A space with the two tuples.
pub fn new_space(alloc: Global) -> Result<Space, NoMemory> {
    let mut space = Space::new(alloc);
    match put_all(alloc, &mut space) {
        Ok(()) => Ok(space),
        Err(NoMemory) => {
            drop(space);
            Err(NoMemory)
        }
    }
}

fn put_all(alloc: Global, space: &mut Space) -> Result<(), NoMemory> {
    for &bytes in &STORED {
        put(alloc, space, bytes)?;
    }
    Ok(())
}

// Operations and answers are dropped by a call: a drop at the function's end has a case for each kind of them.
fn put(alloc: Global, space: &mut Space, bytes: &[u8]) -> Result<(), NoMemory> {
    match read_op(alloc, bytes) {
        Some(op) => {
            let applied = apply(space, &op);
            drop(op);
            applied
        }
        None => Err(NoMemory),
    }
}

fn apply(space: &mut Space, op: &Op<Global>) -> Result<(), NoMemory> {
    if !space.births_left() {
        return Ok(());
    }
    match space.apply(0, op) {
        Ok(answer) => {
            drop(answer);
            Ok(())
        }
        Err(NoMemory) => Err(NoMemory),
    }
}

/// Answers the operation of these bytes to client 1, with the timestamp 9, if they spell one.
pub fn read(
    alloc: Global,
    space: &Space,
    op: &[u8],
    arena: &mut Bump,
) -> Option<Result<Reply, ReadFault>> {
    if !is_op(op) {
        return None;
    }
    let shelf = Shelf {
        space,
        number: NUMBER,
    };
    let request = ReadRequest {
        client: ClientId { number: 1 },
        timestamp: Timestamp(9),
        op,
    };
    Some(answer(alloc, &shelf, &request, arena))
}

/// Whether the reply is to that request, and says this.
pub fn says(alloc: Global, reply: &Reply, answer: &[u8]) -> Result<bool, NoMemory> {
    if is_to_request(reply) {
        spells_answer(alloc, &reply.answer, answer)
    } else {
        Ok(false)
    }
}

fn is_to_request(reply: &Reply) -> bool {
    reply.client.number == 1
        && reply.timestamp.0 == 9
        && reply.kind == Mode::ReadOnly
        && reply.number.0 == NUMBER.0
}

// An operation and its answer, in bytes, or none if it is refused.
type Row<'a> = (&'a [u8], Option<&'a [u8]>);

static ROWS: [Row<'static>; 9] = [
    // rdp (*): found ("k")
    (b"\x22\x01\x10", Some(b"\x32\x01\x02\x00\x01k")),
    // rdp (?bool): found (true)
    (b"\x22\x01\x14", Some(b"\x32\x01\x04\x01")),
    // rdp (?int): absent
    (b"\x22\x01\x11", Some(b"\x33")),
    // rdAll 64 (*): all 2 ("k") (true)
    (
        b"\x25\x40\x01\x10",
        Some(b"\x35\x02\x01\x02\x00\x01k\x01\x04\x01"),
    ),
    // rdAll 1 (*): all 1 ("k")
    (b"\x25\x01\x01\x10", Some(b"\x35\x01\x01\x02\x00\x01k")),
    // rdAll 1 (): all 0
    (b"\x25\x01\0", Some(b"\x35\0")),
    // inp (*), out ("k") and cas (?text) (true)
    (b"\x23\x01\x10", None),
    (b"\x21\x01\x02\x00\x01k", None),
    (b"\x24\x01\x12\x01\x04\x01", None),
];

fn is_as_told(
    alloc: Global,
    answered: &Option<Result<Reply, ReadFault>>,
    expected: Option<&[u8]>,
) -> Result<bool, NoMemory> {
    match (answered, expected) {
        (Some(Err(ReadFault::NoMemory)), _) => Err(NoMemory),
        (Some(Ok(reply)), Some(bytes)) => says(alloc, reply, bytes),
        (Some(Err(fault)), None) => Ok(*fault == ReadFault::NotReadOnly),
        _ => Ok(false),
    }
}

fn agrees(
    alloc: Global,
    space: &Space,
    arena: &mut Bump,
    (op, expected): Row<'_>,
) -> Result<bool, NoMemory> {
    let answered = read(alloc, space, op, arena);
    let is_right = is_as_told(alloc, &answered, expected);
    drop(answered);
    is_right
}

fn all_agree(alloc: Global, space: &Space, arena: &mut Bump) -> Result<bool, NoMemory> {
    for &row in &ROWS {
        if !agrees(alloc, space, arena, row)? {
            return Ok(false);
        }
    }
    Ok(space.count() == 2)
}

fn all_agree_in_arena(alloc: Global, space: &Space) -> Result<bool, NoMemory> {
    let mut arena = Bump::new(alloc);
    let is_right = all_agree(alloc, space, &mut arena);
    drop(arena);
    is_right
}

fn all_agree_in_space(alloc: Global) -> Result<bool, NoMemory> {
    let space = new_space(alloc)?;
    let is_right = all_agree_in_arena(alloc, &space);
    drop(space);
    is_right
}

#[test]
fn operations(rt: HostRuntime) {
    holds(&rt, all_agree_in_space(rt.alloc()));
}
