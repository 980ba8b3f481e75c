//! Look-ups in reports.

use events::{Entry, EntryKind};
use hex::FromHex;
use schedule_world::{Acceptance, Point, Report};
use sha2::{Digest, Sha256};
use std::alloc::Global;
use terms::Party;
use tuple_codec::{Answer, Op};
use tuple_text::{write_answer, write_op};

// The type bytes of frames.
pub const REQUEST: u8 = 0x41;

pub const PRE_PREPARE: u8 = 0x42;

pub const COMMIT: u8 = 0x44;

pub const VIEW_CHANGE: u8 = 0x46;

pub const NEW_VIEW: u8 = 0x47;

pub const REPLY: u8 = 0x48;

pub const FETCH: u8 = 0x49;

pub const PAGE: u8 = 0x4b;

/// Where the mode of a request stands, after its type, its sender and its timestamp.
pub const MODE: usize = 15;

/// Where the lowest bytes of a reply's timestamp and number stand. Before the timestamp are the reply's type, its
/// sender and its client, and between the two its mode.
pub const TIMESTAMP: usize = 16;

pub const NUMBER: usize = 25;

/// Where the lowest byte of the state's number stands in a fetch, and in an answer with a part the part's index.
/// After the number are the level, and the index in two bytes.
pub const NUMBER_ASKED: usize = 14;

pub const INDEX: usize = 15;

/// How many bytes stand after a body: the count of receivers, and each receiver's number and MAC.
pub const OF_ONE_RECEIVER: usize = 2 + 34;

pub const OF_THREE_RECEIVERS: usize = 2 + 3 * 34;

/// The client and the timestamp of an answer that was accepted, and its text.
pub type Row<'a> = (u16, u64, &'a str);

/// The position of a point, its client and its timestamp, and the texts of its operation and of its answer.
pub type PointRow<'a> = (usize, u16, u64, &'a str, &'a str);

/// The number of a batch, and how many requests it has.
pub type Batch = (u64, u8);

/// The number of a party, the type byte of frames that it sends, and a place in these.
pub type Cut = (u16, u8, usize);

/// The number of a party, and the digest of a frame that it got.
pub type Got<'a> = (u16, &'a str);

fn is_text(alloc: Global, answer: &Answer<Global>, text: &str) -> bool {
    let mut out = Vec::new(alloc);
    write_answer(answer, &mut out).is_ok() && out.as_slice() == text.as_bytes()
}

fn is_line(alloc: Global, op: &Op<Global>, line: &str) -> bool {
    let mut out = Vec::new(alloc);
    write_op(op, &mut out).is_ok() && out.as_slice() == line.as_bytes()
}

fn is_accepted(alloc: Global, acceptance: &Acceptance, (client, timestamp, text): Row<'_>) -> bool {
    acceptance.client.number == client
        && acceptance.timestamp.0 == timestamp
        && is_text(alloc, &acceptance.answer, text)
}

/// Whether these were accepted, in this order, and nothing else, and no party stopped.
pub fn accepts(alloc: Global, report: &Report, rows: &[Row<'_>]) -> bool {
    let accepted = report.accepted.as_slice();
    for (acceptance, row) in accepted.iter().zip(rows) {
        if !is_accepted(alloc, acceptance, *row) {
            return false;
        }
    }
    accepted.len() == rows.len() && report.stopped.is_empty()
}

/// Whether the answers were accepted at these positions.
pub fn are_accepted_at(report: &Report, positions: &[usize]) -> bool {
    let accepted = report.accepted.as_slice();
    for (acceptance, position) in accepted.iter().zip(positions) {
        if acceptance.position != *position {
            return false;
        }
    }
    accepted.len() == positions.len()
}

fn is_done(alloc: Global, accepted: &[Acceptance], client: u16) -> bool {
    for acceptance in accepted {
        if is_accepted(alloc, acceptance, (client, 1, "done")) {
            return true;
        }
    }
    false
}

/// Whether the first calls of so many clients are done, in any order, and one more answer is accepted last.
pub fn done_and_read(alloc: Global, report: &Report, clients: u16, row: Row<'_>) -> bool {
    let accepted = report.accepted.as_slice();
    for client in 0..clients {
        if !is_done(alloc, accepted, client) {
            return false;
        }
    }
    match accepted.last() {
        Some(last) => {
            accepted.len() == usize::from(clients) + 1 && is_accepted(alloc, last, row)
        }
        None => false,
    }
}

fn is_point(
    alloc: Global,
    point: &Point,
    (position, client, timestamp, op, answer): PointRow<'_>,
) -> bool {
    point.position == position
        && point.client.number == client
        && point.timestamp.0 == timestamp
        && is_line(alloc, &point.op, op)
        && is_text(alloc, &point.answer, answer)
}

/// Whether these are the points, in this order, and there are no others.
pub fn has_points(alloc: Global, report: &Report, rows: &[PointRow<'_>]) -> bool {
    let points = report.points.as_slice();
    for (point, row) in points.iter().zip(rows) {
        if !is_point(alloc, point, *row) {
            return false;
        }
    }
    points.len() == rows.len()
}

fn is_executed_by(entry: &Entry, replica: u8) -> bool {
    match entry.kind() {
        EntryKind::Executed(by, _, _) => by.0 == replica,
        _ => false,
    }
}

// Whether the entry is the execution of this batch.
fn is_batch(entry: &Entry, wanted: Option<&Batch>) -> bool {
    let Some((wanted, count)) = wanted else {
        return false;
    };
    match entry.kind() {
        EntryKind::Executed(_, number, batch) => {
            number.0 == *wanted && batch.as_slice().first() == Some(count)
        }
        _ => false,
    }
}

fn executes(report: &Report, replica: u8, batches: &[Batch]) -> bool {
    let mut count = 0usize;
    for entry in report.trace.as_slice() {
        if is_executed_by(entry, replica) {
            if !is_batch(entry, batches.get(count)) {
                return false;
            }
            count = count.saturating_add(1);
        }
    }
    count == batches.len()
}

/// Whether each of these replicas executed these batches, in this order, and no others.
pub fn execute(report: &Report, replicas: &[u8], batches: &[Batch]) -> bool {
    for replica in replicas {
        if !executes(report, *replica, batches) {
            return false;
        }
    }
    true
}

fn is_executed_at(report: &Report, position: usize, replica: u8) -> bool {
    match report.trace.get(position) {
        Some(entry) => is_executed_by(entry, replica) && is_batch(entry, Some(&(1, 1))),
        None => false,
    }
}

/// Whether at these positions these replicas execute number 1, of one request.
pub fn executes_at(report: &Report, rows: &[(usize, u8)]) -> bool {
    for (position, replica) in rows {
        if !is_executed_at(report, *position, *replica) {
            return false;
        }
    }
    true
}

/// Whether replica 3 alone installs a state, once, and it is that of the number.
pub fn installs(report: &Report, wanted: u64) -> bool {
    let mut count = 0usize;
    for entry in report.trace.as_slice() {
        if let EntryKind::Installed(replica, number, _) = entry.kind() {
            if replica.0 != 3 || number.0 != wanted {
                return false;
            }
            count = count.saturating_add(1);
        }
    }
    count == 1
}

/// The number of the party that sent a frame, and the frame, if the entry is a sending.
pub fn sent(entry: &Entry) -> Option<(u16, &[u8])> {
    match entry.kind() {
        EntryKind::Sent(party, frame) => Some((party.number(), frame.as_slice())),
        _ => None,
    }
}

// Whether a frame of this type is sent; by this party, if one is named.
fn is_of(entry: &Entry, party: Option<u16>, kind: u8) -> bool {
    match sent(entry) {
        Some((sender, frame)) => {
            frame.get(4) == Some(&kind) && party.unwrap_or(sender) == sender
        }
        None => false,
    }
}

/// Whether the parties that send a frame are these, one frame each.
pub fn senders_are(report: &Report, senders: &[u16]) -> bool {
    let mut left = senders.iter();
    for entry in report.trace.as_slice() {
        if let Some((sender, _)) = sent(entry) {
            if left.next().copied() != Some(sender) {
                return false;
            }
        }
    }
    left.next().is_none()
}

/// How many frames of this type are sent; by this party, if one is named.
pub fn count_of(report: &Report, party: Option<u16>, kind: u8) -> usize {
    let mut count = 0usize;
    for entry in report.trace.as_slice() {
        if is_of(entry, party, kind) {
            count = count.saturating_add(1);
        }
    }
    count
}

// Whether the frame that is sent has this text at the place, and so many bytes after it if their number is given.
fn has_text(entry: &Entry, place: usize, spare: Option<usize>, text: Option<&&[u8]>) -> bool {
    let (Some((_, frame)), Some(text)) = (sent(entry), text) else {
        return false;
    };
    match spare {
        Some(spare) => frame.get(place..frame.len().saturating_sub(spare)) == Some(*text),
        None => has_at(frame, place, text),
    }
}

/// Whether the frames of the type that the party sends have these texts from the place on, in this order, and so many
/// bytes after them if their number is given, and there are no others.
pub fn texts_are(
    report: &Report,
    (party, kind, place): Cut,
    spare: Option<usize>,
    texts: &[&[u8]],
) -> bool {
    let mut count = 0usize;
    for entry in report.trace.as_slice() {
        if is_of(entry, Some(party), kind) {
            if !has_text(entry, place, spare, texts.get(count)) {
                return false;
            }
            count = count.saturating_add(1);
        }
    }
    count == texts.len()
}

// Whether the bytes have this text at the place.
fn has_at(bytes: &[u8], place: usize, text: &[u8]) -> bool {
    match bytes.get(place..) {
        Some(bytes) => bytes.starts_with(text),
        None => false,
    }
}

/// Whether the last entry is a frame that the party sends, with this text at the place.
pub fn sends_last(report: &Report, party: u16, place: usize, text: &[u8]) -> bool {
    match report.trace.last() {
        Some(entry) => match sent(entry) {
            Some((sender, frame)) => sender == party && has_at(frame, place, text),
            None => false,
        },
        None => false,
    }
}

fn is_got(entry: &Entry, (number, digits): Got<'_>) -> bool {
    match entry.kind() {
        EntryKind::Got(party, bytes) => {
            party.number() == number
                && <[u8; 32]>::from_hex(digits).ok() == Some(Sha256::digest(bytes.as_slice()))
        }
        _ => false,
    }
}

/// Whether these parties got frames with these digests, in this order, and there is no other entry.
pub fn are_got(report: &Report, rows: &[Got<'_>]) -> bool {
    let trace = report.trace.as_slice();
    for (entry, row) in trace.iter().zip(rows) {
        if !is_got(entry, *row) {
            return false;
        }
    }
    trace.len() == rows.len()
}
