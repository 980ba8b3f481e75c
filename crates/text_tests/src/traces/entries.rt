//! Entries and their texts.

use events::{Entry, EntryKind, SharedBytes};
use std::alloc::Global;
use std::sync::Arc;
use std::test::Fail;
use terms::{ClientId, NoMemory, Number, Party, ReplicaId, Timestamp};
use trace_text::write_entry;
use tuple_codec::Answer;
use tuple_text::read_line;

fn is_shown(alloc: Global, kind: EntryKind, text: &[u8]) -> Result<bool, NoMemory> {
    let mut out = Vec::new(alloc);
    // Dropped by a call: a drop at the function's end has a case for each kind of entry.
    let entry = Entry::new(kind);
    let written = write_entry(alloc, &entry, &mut out);
    drop(entry);
    written?;
    Ok(out.as_slice() == text)
}

static LINES: [&[u8]; 5] = [
    b"out (1 \"a\" (x00ff true))",
    b"rdp (* ?int (?text ?bytes) ?bool ?tuple 2)",
    b"inp ()",
    b"cas (\"k\" *) (\"k\" -1)",
    b"rdAll 64 (*)",
];

// An operation stands as its line.
fn shows_call(alloc: Global, line: &[u8]) -> Result<bool, Fail> {
    let Some(op) = read_line(alloc, line)? else {
        return Ok(false);
    };
    let mut text = Vec::new(alloc);
    text.extend_from_slice(b"invoke c0 time 1 ")?;
    text.extend_from_slice(line)?;
    let op = Arc::new(alloc, op)?;
    let kind = EntryKind::Invoke(ClientId { number: 0 }, Timestamp(1), op);
    Ok(is_shown(alloc, kind, text.as_slice())?)
}

#[test]
fn shows_calls(rt: HostRuntime) -> Result<(), Fail> {
    for &line in &LINES {
        assert!(rt; shows_call(rt.alloc(), line)?, "{line:?}");
    }
    Ok(())
}

const CLIENT: ClientId = ClientId { number: 7 };

fn shows_batch(alloc: Global) -> Result<bool, NoMemory> {
    let batch = SharedBytes::new(Vec::new(alloc))?;
    let executed = EntryKind::Executed(ReplicaId(0), Number(1), batch);
    is_shown(alloc, executed, b"executed r0 number 1 null")
}

fn shows_state(alloc: Global) -> Result<bool, NoMemory> {
    let root = Arc::new(alloc, [0xab; 32])?;
    let installed = EntryKind::Installed(ReplicaId(1), Number(32), root);
    is_shown(alloc, installed, b"installed r1 number 32 root abababab")
}

fn shows_tick(alloc: Global) -> Result<bool, NoMemory> {
    is_shown(alloc, EntryKind::Tick(Party::Client(CLIENT)), b"tick c7")
}

fn shows_no_frame(alloc: Global) -> Result<bool, NoMemory> {
    let none = SharedBytes::new(Vec::new(alloc))?;
    let got = EntryKind::Got(Party::Replica(ReplicaId(3)), none);
    is_shown(alloc, got, b"got r3 0 bytes that are no frame")
}

fn shows_answer(alloc: Global) -> Result<bool, NoMemory> {
    let answer = Arc::new(alloc, Answer::Swapped(true))?;
    let accepted = EntryKind::Accepted(CLIENT, Timestamp(2), answer);
    is_shown(alloc, accepted, b"accepted c7 time 2 swapped true")
}

#[test]
fn shows_what_happens(rt: HostRuntime) -> Result<(), Fail> {
    assert!(rt; shows_tick(rt.alloc())?);
    assert!(rt; shows_no_frame(rt.alloc())?);
    assert!(rt; shows_batch(rt.alloc())?);
    assert!(rt; shows_state(rt.alloc())?);
    assert!(rt; shows_answer(rt.alloc())?);
    Ok(())
}
