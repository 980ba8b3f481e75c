//! Frames that replicas sign, written by docs/formats.md without the code that reads them.

use crate::frames::{put_batch, put_digest, put_front};
use crate::states::{State, put_root};
use authenticator::signing_seed;
use signing::KeyTree;
use std::alloc::Global;
use terms::{Party, ReplicaId};
use test_bytes::{Buffer, FRAME_SEED};

/// A number and a view: the run's batch of this number was prepared, or logged, in this view.
pub type PqEntry = (u8, u8);

/// A view change.
#[derive(Clone, Copy)]
pub struct Change {
    pub sender: u8,
    /// Of the sender's tree the leaf that signs it, below 64.
    pub leaf: u8,
    pub view: u8,
    pub low: u8,
    /// Of the numbers of these states it keeps the checkpoints.
    pub kept: &'static [u8],
    pub prepared: &'static [PqEntry],
    pub logged: &'static [PqEntry],
    /// Whether its signature is wrong.
    pub is_forged: bool,
}

/// A new view.
#[derive(Clone, Copy)]
pub struct NewViewCase {
    pub sender: u8,
    pub leaf: u8,
    pub view: u8,
    pub changes: &'static [Change],
    /// The number of the state that it starts from.
    pub start: u8,
    /// The numbers whose batches of the run it has; 0 stands for the null batch.
    pub batches: &'static [u8],
    pub is_forged: bool,
}

/// The key tree of a replica, by its number.
pub fn key_tree(replica: u8) -> KeyTree {
    let party = Party::Replica(ReplicaId(replica));
    KeyTree::new(&signing_seed(&FRAME_SEED, party))
}

// Puts the signature of a body by this leaf of a tree, below 64.
fn put_signature(alloc: Global, tree: &KeyTree, leaf: u8, body: &[u8], out: &mut Buffer) {
    match tree.sign_with(alloc, leaf % 64, body) {
        Ok(signature) => out.put(signature.as_slice()),
        Err(_) => out.cut(),
    }
}

/// The frame of a body that is signed with this leaf of a tree, below 64.
pub fn signed(alloc: Global, tree: &KeyTree, leaf: u8, body: &Buffer) -> Buffer {
    let mut frame = Buffer::new(alloc);
    frame.put_framed(body);
    frame.put_byte(1);
    put_signature(alloc, tree, leaf, body.bytes(), &mut frame);
    frame
}

// With the lowest bit of the last byte turned, which is the signature's, if it is to be wrong.
fn signed_by(alloc: Global, by: (u8, u8), body: &Buffer, is_forged: bool) -> Buffer {
    let (sender, leaf) = by;
    let mut frame = signed(alloc, &key_tree(sender), leaf, body);
    let last = frame.bytes().len().saturating_sub(1);
    frame.turn(last, u8::from(is_forged));
    frame
}

/// Puts how many follow, below 256.
pub fn put_count(count: usize, out: &mut Buffer) {
    out.put_byte((count & 0xff) as u8);
}

fn put_pq_entry(alloc: Global, (number, view): PqEntry, out: &mut Buffer) {
    out.put_number(u64::from(number));
    put_digest(alloc, number, out);
    out.put_number(u64::from(view));
}

fn put_pq_set(alloc: Global, pq_sets: &[PqEntry], out: &mut Buffer) {
    out.put_byte(0);
    put_count(pq_sets.len(), out);
    for pq_entry in pq_sets {
        put_pq_entry(alloc, *pq_entry, out);
    }
}

fn put_checkpoint(alloc: Global, number: u8, out: &mut Buffer) {
    out.put_number(u64::from(number));
    put_root(alloc, State::Behind(number), out);
}

fn put_checkpoints(alloc: Global, kept: &[u8], out: &mut Buffer) {
    put_count(kept.len(), out);
    for number in kept {
        put_checkpoint(alloc, *number, out);
    }
}

fn put_change(alloc: Global, change: &Change, out: &mut Buffer) {
    put_front(0x46, change.sender, change.view, out);
    out.put_number(u64::from(change.low));
    put_checkpoints(alloc, change.kept, out);
    put_pq_set(alloc, change.prepared, out);
    put_pq_set(alloc, change.logged, out);
}

/// The frame of a view change.
pub fn change_frame(alloc: Global, change: &Change) -> Buffer {
    let mut body = Buffer::new(alloc);
    put_change(alloc, change, &mut body);
    signed_by(alloc, (change.sender, change.leaf), &body, change.is_forged)
}

fn put_changes(alloc: Global, changes: &[Change], out: &mut Buffer) {
    put_count(changes.len(), out);
    for change in changes {
        out.put_framed(&change_frame(alloc, change));
    }
}

fn put_batch_or_null(alloc: Global, number: u8, out: &mut Buffer) {
    if number == 0 {
        out.put_byte(0);
    } else {
        put_batch(alloc, number, out);
    }
}

fn put_batches(alloc: Global, batches: &[u8], out: &mut Buffer) {
    put_count(batches.len(), out);
    for number in batches {
        put_batch_or_null(alloc, *number, out);
    }
}

fn put_new_view(alloc: Global, case: &NewViewCase, out: &mut Buffer) {
    put_front(0x47, case.sender, case.view, out);
    put_changes(alloc, case.changes, out);
    put_checkpoint(alloc, case.start, out);
    put_batches(alloc, case.batches, out);
}

/// The frame of a new view.
pub fn new_view_frame(alloc: Global, case: &NewViewCase) -> Buffer {
    let mut body = Buffer::new(alloc);
    put_new_view(alloc, case, &mut body);
    signed_by(alloc, (case.sender, case.leaf), &body, case.is_forged)
}
