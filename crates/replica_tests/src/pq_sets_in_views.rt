//! A view change whose set Q is as large as it can be, and the effect of one entry more.

use crate::answers::{holds, of_stop};
use crate::frames::{Sent, put_front};
use crate::replicas::{Given, gives, gives_for, replica_of_period};
use crate::signed::{key_tree, put_count, signed};
use crate::states::{ROOT, State, root_of};
use events::{Output, Outputs, Stop};
use replica::{Event, Replica};
use signing::KeyTree;
use std::alloc::{AllocError, Global};
use terms::NoMemory;
use test_bytes::{Buffer, ORDERED, Verdict, all_hold, both, put_request, seal};

// So many entries fit: a view change has 16,606 bytes, 40 for each checkpoint and 48 for each entry, and 262,144 at the
// most. With this many and one checkpoint it has 262,118.
const MOST: usize = 5114;

const LONGEST: usize = 262_118;

// In view 212 it has as many, of 159 views with 32 numbers and one with 26. Of the numbers above 16 these are 159 times
// 16 and 10, and with no checkpoint a view change of them has this many bytes.
const LAST_VIEW: u8 = 212;

const OF_UPPER_HALF: usize = 139_198;

// So many bytes is a signature, which begins with its leaf.
const SIGNATURE_LEN: usize = 16_577;

// The request of a view, of client 0, for replica 3: no other view has it.
fn request_of(alloc: Global, view: u8) -> Buffer {
    let mut body = Buffer::new(alloc);
    put_request(0, 1, ORDERED, b"\x21\x01\x01", &mut body);
    body.put_number(u64::from(view));
    seal(alloc, &body, &[3])
}

// Puts the batch of that request.
fn put_batch(alloc: Global, view: u8, out: &mut Buffer) {
    out.put_byte(1);
    out.put_framed(&request_of(alloc, view));
}

// The pre-prepare of that batch, for replica 3.
fn proposal(alloc: Global, view: u8, number: u8) -> Buffer {
    let mut body = Buffer::new(alloc);
    put_front(0x42, view & 3, view, &mut body);
    body.put_number(u64::from(number));
    put_batch(alloc, view, &mut body);
    seal(alloc, &body, &[3])
}

// Whether the step gave so many outputs.
fn are_so_many(stepped: Result<Outputs, Stop>, count: usize) -> Verdict {
    match stepped {
        Ok(outputs) => {
            let is_right = outputs.len() == count;
            drop(outputs);
            Ok(is_right)
        }
        Err(stop) => of_stop(stop),
    }
}

// Whether replica 3 answers the pre-prepare by a frame, its prepare.
fn logs_one(replica: &mut Replica, alloc: Global, view: u8, number: u8) -> Verdict {
    let frame = proposal(alloc, view, number);
    let verdict = are_so_many(replica.step(alloc, Event::Got(frame.bytes())), 1);
    frame.end(verdict)
}

// Whether it does so for the numbers up to the last.
fn logs(replica: &mut Replica, alloc: Global, view: u8, last: u8) -> Verdict {
    for number in 1..=last {
        match logs_one(replica, alloc, view, number) {
            Ok(true) => {}
            other => return other,
        }
    }
    Ok(true)
}

// A state that a new view starts from, by its number and root.
type Start<'a> = (u8, &'a [u8]);

// The trees of replicas 0, 1 and 2, each made once.
fn key_trees(alloc: Global) -> Result<Vec<KeyTree>, AllocError> {
    let mut trees = Vec::new(alloc);
    for replica in 0..3 {
        trees.push(key_tree(replica))?;
    }
    Ok(trees)
}

// The frame of a body that one of them signs with its first key.
fn signed_by(alloc: Global, trees: &[KeyTree], replica: u8, body: &Buffer) -> Buffer {
    match trees.get(usize::from(replica)) {
        Some(tree) => signed(alloc, tree, 0, body),
        None => Buffer::new(alloc),
    }
}

fn put_start((number, root): Start<'_>, out: &mut Buffer) {
    out.put_number(u64::from(number));
    out.put(root);
}

// Puts the view change of a replica whose P and Q are empty, and keeps the checkpoint of this state.
fn put_empty_change(sender: u8, view: u8, start: Start<'_>, out: &mut Buffer) {
    put_front(0x46, sender, view, out);
    out.put_number(u64::from(start.0));
    out.put_byte(1);
    put_start(start, out);
    out.put(&[0; 4]);
}

fn empty_change(
    alloc: Global,
    trees: &[KeyTree],
    sender: u8,
    view: u8,
    start: Start<'_>,
) -> Buffer {
    let mut body = Buffer::new(alloc);
    put_empty_change(sender, view, start, &mut body);
    signed_by(alloc, trees, sender, &body)
}

// Puts the view changes of replicas 0, 1 and 2.
fn put_empty_changes(
    alloc: Global,
    trees: &[KeyTree],
    view: u8,
    start: Start<'_>,
    out: &mut Buffer,
) {
    put_count(3, out);
    for sender in 0..3 {
        out.put_framed(&empty_change(alloc, trees, sender, view, start));
    }
}

// The new view that starts from this state, with no batches, over these view changes.
fn empty_new_view(alloc: Global, trees: &[KeyTree], view: u8, start: Start<'_>) -> Buffer {
    let mut body = Buffer::new(alloc);
    put_front(0x47, view & 3, view, &mut body);
    put_empty_changes(alloc, trees, view, start, &mut body);
    put_start(start, &mut body);
    put_count(0, &mut body);
    signed_by(alloc, trees, view & 3, &body)
}

// How many numbers it logs in a view, of so many entries that are left.
fn numbers_of(left: usize) -> u8 {
    if left < 32 { (left & 0x1f) as u8 } else { 32 }
}

// Whether replica 3 enters the view, which starts from nothing, and has no other to answer for.
fn enters(
    replica: &mut Replica,
    alloc: Global,
    trees: &[KeyTree],
    view: u8,
    start: Start<'_>,
) -> Verdict {
    let new = empty_new_view(alloc, trees, view, start);
    let verdict = gives(replica, alloc, new.bytes(), &[]);
    new.end(verdict)
}

// It is in view 0 from the first.
fn logs_in_view(
    replica: &mut Replica,
    alloc: Global,
    trees: &[KeyTree],
    (view, count): (u8, u8),
    start: Start<'_>,
) -> Verdict {
    if view == 0 {
        logs(replica, alloc, view, count)
    } else {
        both(
            enters(replica, alloc, trees, view, start),
            logs(replica, alloc, view, count),
        )
    }
}

// Puts as many entries into Q as fit, view after view. It is the primary of each fourth, which nobody begins.
fn fills_q(replica: &mut Replica, alloc: Global, trees: &[KeyTree], start: Start<'_>) -> Verdict {
    let mut left = MOST;
    for view in 0..=LAST_VIEW {
        if view & 3 != 3 {
            let count = numbers_of(left);
            left = left.saturating_sub(usize::from(count));
            match logs_in_view(replica, alloc, trees, (view, count), start) {
                Ok(true) => {}
                other => return other,
            }
        }
    }
    Ok(left == 0)
}

// Whether the last output is a view change of this length, signed with this leaf, and comes after so many others.
fn ends_with_change(outputs: &Outputs, before: usize, len: usize, leaf: u8) -> bool {
    match outputs.as_slice().get(before) {
        Some(Output::Send(_, frame)) => {
            outputs.len() == before.saturating_add(1) && is_change(frame.as_slice(), len, leaf)
        }
        _ => false,
    }
}

fn is_change(frame: &[u8], len: usize, leaf: u8) -> bool {
    let signature = frame.len().saturating_sub(SIGNATURE_LEN);
    frame.len() == len && has_byte(frame, 4, 0x46) && has_byte(frame, signature, leaf)
}

fn has_byte(bytes: &[u8], place: usize, byte: u8) -> bool {
    match bytes.get(place) {
        Some(found) => *found == byte,
        None => false,
    }
}

fn moves_in_time(
    replica: &mut Replica,
    alloc: Global,
    before: usize,
    len: usize,
    leaf: u8,
) -> Verdict {
    match replica.step(alloc, Event::Timeout) {
        Ok(outputs) => {
            let is_right = ends_with_change(&outputs, before, len, leaf);
            drop(outputs);
            Ok(is_right)
        }
        Err(stop) => of_stop(stop),
    }
}

// With one entry more nothing happens when time goes by: it is still active in its view, and logs another.
fn stays_with_one_more(
    replica: &mut Replica,
    alloc: Global,
    trees: &[KeyTree],
    start: Start<'_>,
) -> Verdict {
    all_hold(&[
        enters(replica, alloc, trees, 214, start),
        logs(replica, alloc, 214, 1),
        are_so_many(replica.step(alloc, Event::Timeout), 0),
        logs_one(replica, alloc, 214, 2),
    ])
}

static FETCHES: [Given; 1] = [Given::Sends(Sent::Fetch(16, ROOT, 3))];

// A view that starts at number 16 takes away the entries up to it.
fn is_cut(replica: &mut Replica, alloc: Global, trees: &[KeyTree]) -> Verdict {
    let new = empty_new_view(alloc, trees, 216, (16, &[0xff; 32]));
    let verdict = gives(replica, alloc, new.bytes(), &FETCHES);
    new.end(verdict)
}

// Behind that view the second of its keys is the next that signs.
fn fills_q_and_moves(
    replica: &mut Replica,
    alloc: Global,
    trees: &[KeyTree],
    opening: Start<'_>,
) -> Verdict {
    all_hold(&[
        fills_q(replica, alloc, trees, opening),
        gives_for(replica, alloc, Sent::Request(1), &[]),
        moves_in_time(replica, alloc, 0, LONGEST, 0),
        stays_with_one_more(replica, alloc, trees, opening),
        is_cut(replica, alloc, trees),
        moves_in_time(replica, alloc, 1, OF_UPPER_HALF, 1),
    ])
}

fn replica_fills_q(alloc: Global, trees: &[KeyTree], opening: Start<'_>) -> Verdict {
    match replica_of_period(alloc, 16, 3) {
        Ok(mut replica) => {
            let verdict = fills_q_and_moves(&mut *replica, alloc, trees, opening);
            drop(replica);
            verdict
        }
        Err(stop) => of_stop(stop),
    }
}

fn fills_q_from_the_start(alloc: Global, trees: &[KeyTree]) -> Verdict {
    let root = root_of(alloc, State::Behind(0));
    let verdict = replica_fills_q(alloc, trees, (0, root.bytes()));
    root.end(verdict)
}

fn fills_q_with_all_that_fit(alloc: Global) -> Verdict {
    match key_trees(alloc) {
        Ok(trees) => {
            let verdict = fills_q_from_the_start(alloc, &trees);
            drop(trees);
            verdict
        }
        Err(AllocError) => Err(NoMemory),
    }
}

#[test]
fn pq_sets_in_many_views(rt: HostRuntime) {
    holds(&rt, fills_q_with_all_that_fit(rt.alloc()));
}
