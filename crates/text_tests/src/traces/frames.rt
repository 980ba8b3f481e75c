//! Frames of each message, whose texts come from an implementation of these lines in Python.

use events::{Entry, EntryKind, SharedBytes};
use hex::FromHexError;
use std::alloc::{AllocError, Global};
use std::test::Fail;
use terms::{NoMemory, Number, Party, ReplicaId};
use trace_text::write_entry;

const DIGEST: &str = "a1b2c3d400000000000000000000000000000000000000000000000000000000";

const ZEROS: &str = "0000000000000000000000000000000000000000000000000000000000000000";

// Two requests as batches carry them, after their lengths, each with a MAC.
const FIRST: &str = "0000003f00000017410100000000000000000100210101000000000000000100010000";

const SECOND: &str = "000000370000000f4101ff00010000000000000023011000010003";

// A body of these parts and so many zeros, and its text.
struct Row {
    parts: &'static [&'static str],
    zeros: usize,
    text: &'static str,
}

// Those that go out with MACs.
static SEALED: [Row; 18] = [
    Row {
        parts: &["41010000000000000000010024020200016b10020200016b010000000000000001"],
        zeros: 0,
        text: "request c0 time 1 ordered cas (\"k\" *) (\"k\" 1)",
    },
    Row {
        parts: &["41012cffffffffffffffff0125020111"],
        zeros: 0,
        text: "request c44 time 18446744073709551615 read-only rdAll 2 (?int)",
    },
    Row {
        parts: &[
            "420000",
            "0000000000000000",
            "0000000000000001",
            "01",
            FIRST,
            ZEROS,
        ],
        zeros: 0,
        text: "pre-prepare r0 view 0 number 1 c0:1",
    },
    Row {
        parts: &[
            "420002",
            "0000000000000006",
            "000000000000001f",
            "02",
            FIRST,
            ZEROS,
            SECOND,
            ZEROS,
        ],
        zeros: 0,
        text: "pre-prepare r2 view 6 number 31 c0:1 c255:281474976710656",
    },
    Row {
        parts: &["43000100000000000000000000000000000001", DIGEST],
        zeros: 0,
        text: "prepare r1 view 0 number 1 digest a1b2c3d4",
    },
    Row {
        parts: &["44000900000000000000070000000000000002", DIGEST],
        zeros: 0,
        text: "commit r9 view 7 number 2 digest a1b2c3d4",
    },
    Row {
        parts: &["4500030000000000000010", DIGEST],
        zeros: 0,
        text: "checkpoint r3 number 16 root a1b2c3d4",
    },
    Row {
        parts: &["4800020100000000000000000500000000000000000331"],
        zeros: 0,
        text: "reply r2 client c0 time 5 ordered number 3 done",
    },
    Row {
        parts: &["48000001ff0000000000000006010000000000000000320201000000000000000102000161"],
        zeros: 0,
        text: "reply r0 client c255 time 6 read-only number 0 found (1 \"a\")",
    },
    Row {
        parts: &[
            "48000101010000000000000007000001000000000000",
            "35020101000000000000000101010000000000000002",
        ],
        zeros: 0,
        text: "reply r1 client c1 time 7 ordered number 281474976710656 all 2 (1) (2)",
    },
    Row {
        parts: &["4900030000000000000010000000"],
        zeros: 0,
        text: "fetch r3 number 16 root",
    },
    Row {
        parts: &["490003000000000000001001001f"],
        zeros: 0,
        text: "fetch r3 number 16 inner 31",
    },
    Row {
        parts: &["49000300000000000000100203ff"],
        zeros: 0,
        text: "fetch r3 number 16 page 1023",
    },
    Row {
        parts: &["4a00010000000000000010000000"],
        zeros: 1024,
        text: "meta r1 number 16 root",
    },
    Row {
        parts: &["4a00010000000000000020010007"],
        zeros: 1024,
        text: "meta r1 number 32 inner 7",
    },
    Row {
        parts: &["4b000000000000000000100200"],
        zeros: 17,
        text: "page r0 number 16 page 512 bytes 17",
    },
    Row {
        parts: &["4b000000000000000000100000"],
        zeros: 0,
        text: "page r0 number 16 page 0 bytes 0",
    },
    // The null batch stands in a new view only.
    Row {
        parts: &["410100", "0000000000000002", "00", "2200"],
        zeros: 0,
        text: "request c0 time 2 ordered rdp ()",
    },
];

// Those that go out signed.
static SIGNED: [Row; 2] = [
    Row {
        parts: &[
            "460001",
            "0000000000000001",
            "0000000000000000",
            "010000000000000000",
            DIGEST,
            "0000",
            "0000",
        ],
        zeros: 0,
        text: "view-change r1 view 1 low 0 checkpoints 0:a1b2c3d4 prepared - pre-prepared -",
    },
    Row {
        parts: &[
            "460003",
            "0000000000000009",
            "0000000000000010",
            "020000000000000010",
            DIGEST,
            "0000000000000020",
            DIGEST,
            "00010000000000000011",
            DIGEST,
            "0000000000000008",
            "00020000000000000011",
            DIGEST,
            "0000000000000008",
            "0000000000000012",
            DIGEST,
            "0000000000000007",
        ],
        zeros: 0,
        text: "view-change r3 view 9 low 16 checkpoints 16:a1b2c3d4,32:a1b2c3d4 prepared 17:a1b2c3d4:8 \
               pre-prepared 17:a1b2c3d4:8,18:a1b2c3d4:7",
    },
];

// View changes for view 1, without anything prepared.
static CHANGES: [Row; 3] = [
    Row {
        parts: &[
            "460000",
            "0000000000000001",
            "0000000000000000",
            "00",
            "0000",
            "0000",
        ],
        zeros: 0,
        text: "view-change r0 view 1 low 0 checkpoints - prepared - pre-prepared -",
    },
    Row {
        parts: &[
            "460002",
            "0000000000000001",
            "0000000000000000",
            "00",
            "0000",
            "0000",
        ],
        zeros: 0,
        text: "view-change r2 view 1 low 0 checkpoints - prepared - pre-prepared -",
    },
    Row {
        parts: &[
            "460003",
            "0000000000000001",
            "0000000000000000",
            "00",
            "0000",
            "0000",
        ],
        zeros: 0,
        text: "view-change r3 view 1 low 0 checkpoints - prepared - pre-prepared -",
    },
];

// The fields after these in new views.
static STARTS: [Row; 2] = [
    Row {
        parts: &["0000000000000000", DIGEST, "00"],
        zeros: 0,
        text: "new-view r1 view 1 changes r0,r2,r3 start 0 root a1b2c3d4 batches -",
    },
    Row {
        parts: &[
            "0000000000000010",
            DIGEST,
            "03",
            "01",
            FIRST,
            ZEROS,
            "00",
            "02",
            FIRST,
            ZEROS,
            SECOND,
            ZEROS,
        ],
        zeros: 0,
        text: "new-view r1 view 1 changes r0,r2,r3 start 16 root a1b2c3d4 batches [c0:1] [null] \
               [c0:1 c255:281474976710656]",
    },
];

// Digits that spell no bytes stay out, and the line shows that.
fn push_part(alloc: Global, digits: &str, out: &mut Vec<u8>) -> Result<(), AllocError> {
    match hex::decode(alloc, digits) {
        Ok(bytes) => Ok(out.extend_from_slice(bytes.as_slice())?),
        Err(FromHexError::OutOfMemory) => Err(AllocError),
        Err(_) => Ok(()),
    }
}

fn push_row(alloc: Global, row: &Row, out: &mut Vec<u8>) -> Result<(), AllocError> {
    for part in row.parts {
        push_part(alloc, part, out)?;
    }
    push_zeros(row.zeros, out)
}

fn push_zeros(count: usize, out: &mut Vec<u8>) -> Result<(), AllocError> {
    for _ in 0..count {
        out.push(0)?;
    }
    Ok(())
}

fn push_piece(bytes: &[u8], out: &mut Vec<u8>) -> Result<(), AllocError> {
    let Ok(len) = u32::try_from(bytes.len()) else {
        return Ok(());
    };
    out.extend_from_slice(&len.to_be_bytes())?;
    Ok(out.extend_from_slice(bytes)?)
}

// MACs for replica 0 and client 1, which nobody looks at.
fn push_macs(alloc: Global, out: &mut Vec<u8>) -> Result<(), AllocError> {
    push_part(alloc, "00020000", out)?;
    push_part(alloc, ZEROS, out)?;
    push_part(alloc, "0101", out)?;
    push_part(alloc, ZEROS, out)
}

fn sealed(alloc: Global, row: &Row) -> Result<Vec<u8>, AllocError> {
    let mut body = Vec::new(alloc);
    push_row(alloc, row, &mut body)?;
    let mut frame = Vec::new(alloc);
    push_piece(body.as_slice(), &mut frame)?;
    push_macs(alloc, &mut frame)?;
    Ok(frame)
}

// With a signature at which nobody looks.
fn signed(alloc: Global, body: &[u8]) -> Result<Vec<u8>, AllocError> {
    let mut frame = Vec::new(alloc);
    push_piece(body, &mut frame)?;
    frame.push(1)?;
    push_zeros(16_577, &mut frame)?;
    Ok(frame)
}

fn signed_row(alloc: Global, row: &Row) -> Result<Vec<u8>, AllocError> {
    let mut body = Vec::new(alloc);
    push_row(alloc, row, &mut body)?;
    signed(alloc, body.as_slice())
}

fn push_change(alloc: Global, change: &Row, out: &mut Vec<u8>) -> Result<(), AllocError> {
    let frame = signed_row(alloc, change)?;
    push_piece(frame.as_slice(), out)
}

fn push_new_view(alloc: Global, start: &Row, out: &mut Vec<u8>) -> Result<(), AllocError> {
    push_part(alloc, "470001000000000000000103", out)?;
    for change in &CHANGES {
        push_change(alloc, change, out)?;
    }
    push_row(alloc, start, out)
}

fn new_view(alloc: Global, start: &Row) -> Result<Vec<u8>, AllocError> {
    let mut body = Vec::new(alloc);
    push_new_view(alloc, start, &mut body)?;
    signed(alloc, body.as_slice())
}

fn has_line(alloc: Global, kind: EntryKind, line: &str) -> Result<bool, NoMemory> {
    let mut out = Vec::new(alloc);
    // Dropped by a call: a drop at the function's end has a case for each kind of entry.
    let entry = Entry::new(kind);
    let written = write_entry(alloc, &entry, &mut out);
    drop(entry);
    written?;
    Ok(out.as_slice() == line.as_bytes())
}

fn is_got(alloc: Global, frame: &[u8], text: &str) -> Result<bool, NoMemory> {
    let line = format!(in alloc; "got r1 {text}")?;
    let frame = SharedBytes::new(frame.to_vec(alloc)?)?;
    has_line(
        alloc,
        EntryKind::Got(Party::Replica(ReplicaId(1)), frame),
        line.as_str(),
    )
}

fn is_sent(alloc: Global, frame: &[u8], text: &str, receivers: &str) -> Result<bool, NoMemory> {
    let line = format!(in alloc; "sent r1 {text} to {receivers}")?;
    let frame = SharedBytes::new(frame.to_vec(alloc)?)?;
    has_line(
        alloc,
        EntryKind::Sent(Party::Replica(ReplicaId(1)), frame),
        line.as_str(),
    )
}

// The lines of the frame at its receipt and at its sending.
fn is_shown(alloc: Global, frame: &[u8], text: &str, receivers: &str) -> Result<bool, NoMemory> {
    Ok(is_got(alloc, frame, text)? && is_sent(alloc, frame, text, receivers)?)
}

fn shows_sealed(alloc: Global, row: &Row) -> Result<bool, NoMemory> {
    let frame = sealed(alloc, row)?;
    is_shown(alloc, &frame, row.text, "r0,c1")
}

#[test]
fn shows_frames_with_macs(rt: HostRuntime) -> Result<(), Fail> {
    for row in &SEALED {
        assert!(rt; shows_sealed(rt.alloc(), row)?, "{}", row.text);
    }
    Ok(())
}

fn shows_signed(alloc: Global, row: &Row) -> Result<bool, NoMemory> {
    let frame = signed_row(alloc, row)?;
    is_shown(alloc, &frame, row.text, "all")
}

fn shows_new_view(alloc: Global, start: &Row) -> Result<bool, NoMemory> {
    let frame = new_view(alloc, start)?;
    is_shown(alloc, &frame, start.text, "all")
}

#[test]
fn shows_signed_frames(rt: HostRuntime) -> Result<(), Fail> {
    for rows in [SIGNED.as_slice(), CHANGES.as_slice()] {
        for row in rows {
            assert!(rt; shows_signed(rt.alloc(), row)?, "{}", row.text);
        }
    }
    for row in &STARTS {
        assert!(rt; shows_new_view(rt.alloc(), row)?, "{}", row.text);
    }
    Ok(())
}

fn shows_executed(
    alloc: Global,
    replica: u8,
    number: u64,
    batch: Vec<u8>,
    line: &str,
) -> Result<bool, NoMemory> {
    let batch = SharedBytes::new(batch)?;
    let executed = EntryKind::Executed(ReplicaId(replica), Number(number), batch);
    has_line(alloc, executed, line)
}

fn two_requests(alloc: Global) -> Result<Vec<u8>, AllocError> {
    let mut batch = Vec::new(alloc);
    for part in ["02", FIRST, ZEROS, SECOND, ZEROS] {
        push_part(alloc, part, &mut batch)?;
    }
    Ok(batch)
}

fn null_batch(alloc: Global) -> Result<Vec<u8>, AllocError> {
    let mut batch = Vec::new(alloc);
    batch.push(0)?;
    Ok(batch)
}

#[test]
fn shows_batches(rt: HostRuntime) -> Result<(), Fail> {
    let batch = two_requests(rt.alloc())?;
    let line = "executed r2 number 7 c0:1 c255:281474976710656";
    assert!(rt; shows_executed(rt.alloc(), 2, 7, batch, line)?);
    let none = null_batch(rt.alloc())?;
    let line = "executed r9 number 281474976710656 null";
    assert!(rt; shows_executed(rt.alloc(), 9, 281_474_976_710_656, none, line)?);
    Ok(())
}

fn sent_batch(alloc: Global) -> Result<Entry, NoMemory> {
    let frame = SharedBytes::new(sealed(alloc, &SEALED[3])?)?;
    Ok(Entry::new(EntryKind::Sent(Party::Replica(ReplicaId(2)), frame)))
}

const BATCH_LINE: &[u8] =
    b"sent r2 pre-prepare r2 view 6 number 31 c0:1 c255:281474976710656 to r0,c1";

// The line, after a byte that a refusal leaves alone.
fn is_written(alloc: Global, entry: &Entry, out: &mut Vec<u8>) -> Result<bool, NoMemory> {
    if write_entry(alloc, entry, out).is_err() {
        if out.as_slice() != b"\n".as_slice() {
            return Ok(false);
        }
        write_entry(alloc, entry, out)?;
    }
    Ok(out.len() == BATCH_LINE.len() + 1 && out.as_slice().ends_with(BATCH_LINE))
}

fn with_line_feed(alloc: Global) -> Result<Vec<u8>, AllocError> {
    b"\n".to_vec(alloc)
}

// The entry, at the second try if memory ran out at the first one.
fn sent_batch_again(alloc: Global) -> Result<Entry, NoMemory> {
    match sent_batch(alloc) {
        Ok(entry) => Ok(entry),
        Err(_) => sent_batch(alloc),
    }
}

// And the byte.
fn line_feed_again(alloc: Global) -> Result<Vec<u8>, AllocError> {
    match with_line_feed(alloc) {
        Ok(out) => Ok(out),
        Err(_) => with_line_feed(alloc),
    }
}

fn is_written_behind(alloc: Global, entry: &Entry) -> Result<bool, NoMemory> {
    let mut out = line_feed_again(alloc)?;
    is_written(alloc, entry, &mut out)
}

// Passes whichever growth is refused, as by `tools/growths`: the bytes are as before, and a second
// try gives the line.
#[test]
fn refused_memory(rt: HostRuntime) -> Result<(), Fail> {
    let entry = sent_batch_again(rt.alloc())?;
    assert!(rt; is_written_behind(rt.alloc(), &entry)?);
    Ok(())
}
