//! The frames of a run of requests, `out (n)` of client n - 1 at the number n, and of checkpoints and transfers of
//! its states and views. They are written by docs/formats.md without the code that reads them.

use crate::signed::{Change, NewViewCase, change_frame, new_view_frame};
use crate::states::{At, PAGE, State, put_children, put_page, put_root};
use std::alloc::Global;
use test_bytes::{
    ABSENT, Buffer, DONE, ORDERED, READ, READ_ONLY, TAKE, put_reply, put_request, seal,
};

/// A frame of the run, mostly by its number and the replica that sends it.
#[derive(Clone, Copy)]
pub enum Sent {
    Request(u8),
    /// The read-only request of client 0 for a read, and for an operation that takes a tuple.
    Read,
    ReadOnlyTake,
    /// The answer to the read from the state of this number, 0 or 1, of this replica.
    ReadReply(u8, u8),
    PrePrepare(u8),
    /// The pre-prepare of this view and number, and in that view a prepare and a commit, by their senders.
    PrePrepareIn(u8, u8),
    PrepareIn(u8, u8, u8),
    CommitIn(u8, u8, u8),
    /// A pre-prepare whose request has a wrong MAC for replica 1.
    Forged,
    Prepare(u8, u8),
    Commit(u8, u8),
    Reply(u8, u8),
    /// The checkpoint of this state.
    Checkpoint(u8, State, u8),
    /// The fetch of a part of the state of the number.
    Fetch(u8, At, u8),
    /// The part of this state, from a replica to another one.
    Part(u8, State, At, u8, u8),
    ViewChange(&'static Change),
    NewView(&'static NewViewCase),
    /// No frame: time goes by.
    Nothing,
}

// The bytes in front of the number in `out (n)`, and in `found (1)`.
const OUT: &[u8] = b"\x21\x01\x01";

const FOUND: &[u8] = b"\x32\x01\x01";

// The client that asks for the number.
fn client_of(number: u8) -> u8 {
    number.wrapping_sub(1)
}

// Puts the body of the request for the number.
fn put_out(number: u8, out: &mut Buffer) {
    put_request(client_of(number), 1, ORDERED, OUT, out);
    out.put_number(u64::from(number));
}

fn out_request(alloc: Global, number: u8) -> Buffer {
    let mut body = Buffer::new(alloc);
    put_out(number, &mut body);
    seal(alloc, &body, receivers_of(Sent::Request(number)))
}

// Puts the text of a batch of one frame.
fn put_batch_of(frame: &Buffer, out: &mut Buffer) {
    out.put_byte(1);
    out.put_framed(frame);
}

/// Puts the text of the run's batch of the number.
pub fn put_batch(alloc: Global, number: u8, out: &mut Buffer) {
    put_batch_of(&out_request(alloc, number), out);
}

/// The text of the run's batch of the number.
pub fn batch(alloc: Global, number: u8) -> Buffer {
    let mut text = Buffer::new(alloc);
    put_batch(alloc, number, &mut text);
    text
}

/// Puts the digest of the run's batch of the number.
pub fn put_digest(alloc: Global, number: u8, out: &mut Buffer) {
    out.put_digest(&batch(alloc, number));
}

// The MACs of the request stand at 31, 65, 99 and 133.
fn put_forged_batch(alloc: Global, out: &mut Buffer) {
    let mut request = out_request(alloc, 1);
    request.turn(65, 1);
    put_batch_of(&request, out);
}

// The primary of a view.
fn primary_of(view: u8) -> u8 {
    view & 3
}

/// Puts a message's type, its sender and its first number, mostly its view.
pub fn put_front(kind: u8, replica: u8, number: u8, out: &mut Buffer) {
    out.put_byte(kind);
    out.put_short(u16::from(replica));
    out.put_number(u64::from(number));
}

// Puts what is in front of the batch.
fn put_numbered(view: u8, number: u8, out: &mut Buffer) {
    put_front(0x42, primary_of(view), view, out);
    out.put_number(u64::from(number));
}

// Puts the pre-prepare of the run's batch of the number.
fn put_pre_prepare(alloc: Global, view: u8, number: u8, out: &mut Buffer) {
    put_numbered(view, number, out);
    put_batch(alloc, number, out);
}

fn put_forged(alloc: Global, out: &mut Buffer) {
    put_numbered(0, 1, out);
    put_forged_batch(alloc, out);
}

// Puts a prepare or a commit: its type, view, number and sender.
fn put_vote(alloc: Global, (kind, view, number, replica): (u8, u8, u8, u8), out: &mut Buffer) {
    put_front(kind, replica, view, out);
    out.put_number(u64::from(number));
    put_digest(alloc, number, out);
}

// It says done.
fn put_done(number: u8, replica: u8, out: &mut Buffer) {
    let said = (1, ORDERED, u64::from(number), DONE);
    put_reply(replica, client_of(number), said, out);
}

// In the opening state nothing is found, and after the first number its tuple.
fn put_read_reply(number: u8, replica: u8, out: &mut Buffer) {
    let at = u64::from(number);
    if number == 0 {
        put_reply(replica, 0, (1, READ_ONLY, at, ABSENT), out);
    } else {
        put_reply(replica, 0, (1, READ_ONLY, at, FOUND), out);
        out.put_number(at);
    }
}

fn put_checkpoint(alloc: Global, number: u8, state: State, replica: u8, out: &mut Buffer) {
    put_front(0x45, replica, number, out);
    put_root(alloc, state, out);
}

fn put_fetch(number: u8, (level, index): At, replica: u8, out: &mut Buffer) {
    put_front(0x49, replica, number, out);
    out.put_byte(level);
    out.put_short(index);
}

fn put_page_part(number: u8, state: State, page: u16, replica: u8, out: &mut Buffer) {
    put_front(0x4b, replica, number, out);
    out.put_short(page);
    put_page(state, page, out);
}

fn put_digests(alloc: Global, number: u8, state: State, at: At, replica: u8, out: &mut Buffer) {
    put_front(0x4a, replica, number, out);
    out.put_byte(at.0);
    out.put_short(at.1);
    put_children(alloc, state, at, out);
}

// A page has no byte for its level.
fn put_part(alloc: Global, number: u8, state: State, at: At, replica: u8, out: &mut Buffer) {
    if at.0 == PAGE {
        put_page_part(number, state, at.1, replica, out);
    } else {
        put_digests(alloc, number, state, at, replica, out);
    }
}

// Puts the body of a frame with MACs.
fn put_body(alloc: Global, sent: Sent, out: &mut Buffer) {
    match sent {
        Sent::Request(number) => put_out(number, out),
        Sent::Read => put_request(0, 1, READ_ONLY, READ, out),
        Sent::ReadOnlyTake => put_request(0, 1, READ_ONLY, TAKE, out),
        Sent::ReadReply(number, replica) => put_read_reply(number, replica, out),
        Sent::PrePrepare(number) => put_pre_prepare(alloc, 0, number, out),
        Sent::PrePrepareIn(view, number) => put_pre_prepare(alloc, view, number, out),
        Sent::Forged => put_forged(alloc, out),
        Sent::Prepare(number, replica) => put_vote(alloc, (0x43, 0, number, replica), out),
        Sent::PrepareIn(view, number, replica) => {
            put_vote(alloc, (0x43, view, number, replica), out);
        }
        Sent::Commit(number, replica) => put_vote(alloc, (0x44, 0, number, replica), out),
        Sent::CommitIn(view, number, replica) => {
            put_vote(alloc, (0x44, view, number, replica), out);
        }
        Sent::Reply(number, replica) => put_done(number, replica, out),
        Sent::Checkpoint(number, state, replica) => {
            put_checkpoint(alloc, number, state, replica, out);
        }
        Sent::Fetch(number, at, replica) => put_fetch(number, at, replica, out),
        Sent::Part(number, state, at, from, _) => put_part(alloc, number, state, at, from, out),
        Sent::ViewChange(_) | Sent::NewView(_) | Sent::Nothing => {}
    }
}

fn sealed_frame(alloc: Global, sent: Sent) -> Buffer {
    let mut body = Buffer::new(alloc);
    put_body(alloc, sent, &mut body);
    seal(alloc, &body, receivers_of(sent))
}

/// Its bytes.
pub fn frame_of(alloc: Global, sent: Sent) -> Buffer {
    match sent {
        Sent::ViewChange(change) => change_frame(alloc, change),
        Sent::NewView(case) => new_view_frame(alloc, case),
        _ => sealed_frame(alloc, sent),
    }
}

static REPLICAS: [u16; 4] = [0, 1, 2, 3];

static CLIENTS: [u16; 3] = [256, 257, 258];

// The party alone, of those in order.
fn only(parties: &'static [u16], place: u8) -> &'static [u16] {
    let place = usize::from(place);
    parties.get(place..place + 1).unwrap_or(&[])
}

// All replicas but this one.
fn others_of(replica: u8) -> &'static [u16] {
    match replica {
        0 => &[1, 2, 3],
        1 => &[0, 2, 3],
        2 => &[0, 1, 3],
        _ => &[0, 1, 2],
    }
}

/// The parties for whom it is, by their numbers, in order.
pub fn receivers_of(sent: Sent) -> &'static [u16] {
    match sent {
        Sent::Request(_) | Sent::Read | Sent::ReadOnlyTake => &REPLICAS,
        Sent::ReadReply(_, _) => only(&CLIENTS, 0),
        Sent::PrePrepare(_) | Sent::Forged => others_of(0),
        Sent::PrePrepareIn(view, _) => others_of(primary_of(view)),
        Sent::Prepare(_, replica)
        | Sent::Commit(_, replica)
        | Sent::PrepareIn(_, _, replica)
        | Sent::CommitIn(_, _, replica)
        | Sent::Checkpoint(_, _, replica)
        | Sent::Fetch(_, _, replica) => others_of(replica),
        Sent::Reply(number, _) => only(&CLIENTS, client_of(number)),
        Sent::Part(_, _, _, _, to) => only(&REPLICAS, to),
        Sent::ViewChange(change) => others_of(change.sender),
        Sent::NewView(case) => others_of(case.sender),
        Sent::Nothing => &[],
    }
}
