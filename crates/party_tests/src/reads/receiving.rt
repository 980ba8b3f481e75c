//! Whether the replicas receive a read-only request.

ghost use Rattle.std.specs.Prelude.{◌≤◌};

use crate::answers::holds;
use crate::reads::frames::FRAME;
use crate::rings::own_ring;
use authenticator::Ring;
use read_only::{asks_read, authenticate_read};
use std::alloc::Global;
use terms::{NoMemory, Party, ReplicaId};

// The hearer, the byte of the frame whose lowest bit is turned, if any, and whether the hearer receives the read.
type Row = (u8, Option<usize>, bool);

// rdp (*)
const OP: &[u8] = b"\x22\x01\x10";

static ROWS: [Row; 14] = [
    (0, None, true),
    (1, None, true),
    // It is sealed for others.
    (2, None, false),
    (3, None, false),
    // The length, the type, the sender, the timestamp, the mode, the operation.
    (0, Some(3), false),
    (0, Some(4), false),
    (1, Some(6), false),
    (0, Some(14), false),
    (1, Some(15), false),
    (0, Some(18), false),
    // The MAC for the other replica, and its own.
    (1, Some(30), true),
    (0, Some(30), false),
    (0, Some(88), true),
    (1, Some(88), false),
];

// Whether the replica receives this read from the bytes: of client 1, with the timestamp 9, `rdp (*)`.
fn receives_by(ring: &mut Ring, me: u8, bytes: &[u8]) -> bool {
    if !asks_read(bytes) {
        return false;
    }
    match authenticate_read(ring, ReplicaId(me), bytes) {
        Some(read) => { read.client.number == 1 && read.timestamp.0 == 9 && read.op == OP }
        None => false,
    }
}

// The same by its own keys among so many clients.
fn receives(alloc: Global, clients: u16, me: u8, bytes: &[u8]) -> Result<bool, NoMemory>
    requires { clients ≤ 256 }
{
    match own_ring(alloc, clients, Party::Replica(ReplicaId(me))) {
        Ok(mut ring) => {
            let is_received = receives_by(&mut ring, me, bytes);
            drop(ring);
            Ok(is_received)
        }
        Err(NoMemory) => Err(NoMemory),
    }
}

fn agrees(alloc: Global, (me, at, is_authentic_to): Row) -> Result<bool, NoMemory> {
    let mut frame = FRAME;
    if let Some(at) = at {
        if at < frame.len() {
            frame[at] ^= 1;
        }
    }
    Ok(receives(alloc, 2, me, &frame)? == is_authentic_to)
}

fn all_agree(alloc: Global) -> Result<bool, NoMemory> {
    for &row in &ROWS {
        if !agrees(alloc, row)? {
            return Ok(false);
        }
    }
    Ok(true)
}

#[test]
fn reads_are_heard(rt: HostRuntime) {
    holds(&rt, all_agree(rt.alloc()));
}

fn is_dropped(alloc: Global, clients: u16, bytes: &[u8]) -> Result<bool, NoMemory>
    requires { clients ≤ 256 }
{
    Ok(!receives(alloc, clients, 0, bytes)?)
}

// Client 1 takes no part if there is one client.
#[test]
fn reads_of_no_client(rt: HostRuntime) {
    holds(&rt, is_dropped(rt.alloc(), 1, FRAME.as_slice()));
}

// Bytes, and whether they have the marks.
static MARKS: [(&[u8], bool); 6] = [
    (b"", false),
    (b"\0\0\0\0\x41\0\0\0\0\0\0\0\0\0\0", false),
    (b"\0\0\0\0\x41\0\0\0\0\0\0\0\0\0\0\x01", true),
    (b"\0\0\0\0\x41\0\0\0\0\0\0\0\0\0\0\0", false),
    (b"\0\0\0\0\x48\0\0\0\0\0\0\0\0\0\0\x01", false),
    (b"\0\0\0\x41\0\0\0\0\0\0\0\0\0\0\x01\0", false),
];

#[test]
fn marks_of_reads(rt: HostRuntime) {
    for &(bytes, is_marked) in &MARKS {
        assert!(rt; asks_read(bytes) == is_marked);
    }
}

// Marks are no frame.
#[test]
fn marks_alone_are_not_heard(rt: HostRuntime) {
    let marks = b"\0\0\0\0\x41\0\0\0\0\0\0\0\0\0\0\x01";
    holds(&rt, is_dropped(rt.alloc(), 2, marks));
}
