//! The view changes that a replica keeps: each refusal, in a case in which it is the first that applies; which view
//! it joins, and the new view that it makes of them. Four replicas, a checkpoint each 16 batches.

use crate::answers::holds;
use crate::views::frames::{ROOT, SEED, Said, changes};
use signing::PublicKeys;
use std::alloc::{AllocError, Global};
use terms::{NoMemory, ReplicaId, View};
use test_bytes::{Verdict, all_hold, both};
use view_change::{
    Change, ChangeFault, NewViewFault, Received, Sizes, assemble, check_new_view, select,
};
use wire::NewView;

const SIZES: Sizes = Sizes {
    faults: 1,
    period: 16,
};

// The view changes that come, each with its sender.
static SAID: [(u8, Said); 8] = [
    (0, (1, 0, 0)),
    (0, (2, 0, 0)),
    (1, (1, 0, 0)),
    (2, (1, 0, 0)),
    // Its prepared batch is not above its low mark.
    (2, (1, 16, 1)),
    (2, (3, 0, 0)),
    (1, (3, 0, 0)),
    // Its signature is broken below.
    (2, (4, 0, 0)),
];

const FIRST: usize = 0;

const LATER: usize = 1;

const OTHER: usize = 2;

const THIRD: usize = 3;

const OUT_OF_BOUNDS: usize = 4;

const HIGHEST: usize = 5;

const HIGHEST_OTHER: usize = 6;

const BROKEN: usize = 7;

// Which view change comes, in which view the replica was last active, and why it is refused.
static ROWS: [(usize, u64, Option<ChangeFault>); 12] = [
    // A signature is wrong, whatever else.
    (BROKEN, 9, Some(ChangeFault::BadSignature)),
    (BROKEN, 0, Some(ChangeFault::BadSignature)),
    // It is not above the last active view, whatever its bounds are.
    (OUT_OF_BOUNDS, 1, Some(ChangeFault::WrongView)),
    (FIRST, 1, Some(ChangeFault::WrongView)),
    // It is out of its bounds, though new.
    (OUT_OF_BOUNDS, 0, Some(ChangeFault::OutOfBounds)),
    // It is taken, but not twice.
    (FIRST, 0, None),
    (FIRST, 0, Some(ChangeFault::Duplicate)),
    // A later one of the sender takes its place, and then not the earlier one.
    (LATER, 0, None),
    (FIRST, 0, Some(ChangeFault::Duplicate)),
    (FIRST, 1, Some(ChangeFault::WrongView)),
    // That of another one is taken beside it.
    (OTHER, 0, None),
    (THIRD, 0, None),
];

// At the second try if memory ran out at the first one.
fn fault_at(
    alloc: Global,
    received: &mut Received,
    view: u64,
    frame: &[u8],
) -> Option<ChangeFault> {
    match received.add(alloc, View(view), frame) {
        Err(ChangeFault::NoMemory) => received.add(alloc, View(view), frame).err(),
        first => first.err(),
    }
}

fn is_so(
    alloc: Global,
    received: &mut Received,
    frames: &[Vec<u8>],
    row: (usize, u64, Option<ChangeFault>),
) -> bool {
    let (at, view, wanted) = row;
    match frames.get(at) {
        Some(frame) => fault_at(alloc, received, view, frame) == wanted,
        None => false,
    }
}

pub fn none_received(alloc: Global) -> Result<Received, NoMemory> {
    let publics = PublicKeys::new(alloc, &SEED, 1)?;
    Received::new(alloc, publics, SIZES)
}

fn joins(received: &Received, me: u8, target: u64, wanted: Option<u64>) -> bool {
    received
        .joined_view(ReplicaId(me), View(target))
        .map(|view| view.0)
        == wanted
}

fn has(received: &Received, frames: &[Vec<u8>], at: usize) -> bool {
    frames
        .get(at)
        .is_some_and(|frame| received.has_frame(frame))
}

fn are_in_turn(alloc: Global, received: &mut Received, frames: &[Vec<u8>]) -> bool {
    for &row in &ROWS {
        if !is_so(alloc, received, frames, row) {
            return false;
        }
    }
    true
}

fn are_senders(changes: &[Change], senders: &[u8]) -> bool {
    for (change, sender) in changes.iter().zip(senders) {
        if change.sender.0 != *sender {
            return false;
        }
    }
    changes.len() == senders.len()
}

fn are_from(alloc: Global, received: &Received, view: u64, senders: &[u8]) -> Verdict {
    match received.changes_for(alloc, View(view)) {
        Ok(changes) => {
            let is_right = are_senders(&changes, senders);
            drop(changes);
            Ok(is_right)
        }
        Err(NoMemory) => Err(NoMemory),
    }
}

fn has_latest(received: &Received, frames: &[Vec<u8>]) -> bool {
    received.frame_of(ReplicaId(0)) == frames.get(LATER).map(|frame| frame.as_slice())
        && received.frame_of(ReplicaId(3)).is_none()
        && has(received, frames, LATER)
        && !has(received, frames, FIRST)
}

fn keeps_latest(alloc: Global, received: &mut Received, frames: &[Vec<u8>]) -> Verdict {
    all_hold(&[
        Ok(fault_at(alloc, received, 0, b"no frame") == Some(ChangeFault::BadSignature)),
        Ok(are_in_turn(alloc, received, frames)),
        are_from(alloc, received, 1, &[1, 2]),
        are_from(alloc, received, 2, &[0]),
        Ok(has_latest(received, frames)),
    ])
}

// The view change that comes first, if any, a replica and its target, and the view that it joins.
static JOINS: [(Option<usize>, u8, u64, Option<u64>); 6] = [
    (Some(OTHER), 3, 0, None),
    (Some(HIGHEST), 3, 0, Some(1)),
    // One of the two is the own one, or at the target.
    (None, 1, 0, None),
    (None, 3, 1, None),
    (Some(HIGHEST_OTHER), 3, 1, Some(3)),
    (None, 3, 3, None),
];

// Whether it comes and is taken, or none does.
fn comes(alloc: Global, received: &mut Received, frames: &[Vec<u8>], at: Option<usize>) -> bool {
    match at {
        Some(at) => is_so(alloc, received, frames, (at, 0, None)),
        None => true,
    }
}

fn joins_in_turn(alloc: Global, received: &mut Received, frames: &[Vec<u8>]) -> bool {
    for &(at, me, target, wanted) in &JOINS {
        if !comes(alloc, received, frames, at) || !joins(received, me, target, wanted) {
            return false;
        }
    }
    true
}

// The new view of view 1, if nothing was prepared.
fn made(alloc: Global, received: &Received) -> Result<Option<NewView>, NoMemory> {
    let set = received.changes_for(alloc, View(1))?;
    match select(alloc, &set, received.sizes(), View(1), &[])? {
        Some(selected) if selected.batches.is_empty() => {
            Ok(Some(assemble(alloc, received, View(1), &selected)?))
        }
        _ => Ok(None),
    }
}

fn is_taken(alloc: Global, received: &Received, new: &NewView) -> Verdict {
    match check_new_view(alloc, received, View(0), View(1), ReplicaId(1), new) {
        Ok(()) => Ok(new.start.0 == 0 && new.root == [ROOT; 32] && new.changes.len() == 3),
        Err(NewViewFault::NoMemory) => Err(NoMemory),
        Err(_) => Ok(false),
    }
}

// Whether a new view is made, and is taken then; or that none is.
fn makes(alloc: Global, received: &Received, is_made: bool) -> Verdict {
    match made(alloc, received) {
        Ok(Some(new)) => {
            let verdict = is_taken(alloc, received, &new);
            drop(new);
            both(Ok(is_made), verdict)
        }
        Ok(None) => Ok(!is_made),
        Err(NoMemory) => Err(NoMemory),
    }
}

fn makes_of_three(alloc: Global, received: &mut Received, frames: &[Vec<u8>]) -> Verdict {
    all_hold(&[
        Ok(is_so(alloc, received, frames, (THIRD, 0, None))),
        Ok(is_so(alloc, received, frames, (FIRST, 0, None))),
        makes(alloc, received, false),
        Ok(is_so(alloc, received, frames, (OTHER, 0, None))),
        makes(alloc, received, true),
    ])
}

// What is asked of a replica that has received nothing, and to which the frames come.
#[derive(Clone, Copy)]
enum Asked {
    KeepsLatest,
    Joins,
    Makes,
}

fn answers(alloc: Global, received: &mut Received, frames: &[Vec<u8>], asked: Asked) -> Verdict {
    match asked {
        Asked::KeepsLatest => keeps_latest(alloc, received, frames),
        Asked::Joins => Ok(joins_in_turn(alloc, received, frames)),
        Asked::Makes => makes_of_three(alloc, received, frames),
    }
}

fn answers_on_changes(alloc: Global, received: &mut Received, asked: Asked) -> Verdict {
    match changes(alloc, &SAID) {
        Ok(frames) => {
            let verdict = answers(alloc, received, &frames, asked);
            drop(frames);
            verdict
        }
        Err(AllocError) => Err(NoMemory),
    }
}

fn does(alloc: Global, asked: Asked) -> Verdict {
    match none_received(alloc) {
        Ok(mut received) => {
            let verdict = answers_on_changes(alloc, &mut received, asked);
            drop(received);
            verdict
        }
        Err(NoMemory) => Err(NoMemory),
    }
}

// The latest of each replica is held. The senders for a view ascend, whatever the order in which they came.
#[test]
fn the_latest_is_kept(rt: HostRuntime) {
    holds(&rt, does(rt.alloc(), Asked::KeepsLatest));
}

// The least view that f + 1 others reach, above the target.
#[test]
fn others_are_joined(rt: HostRuntime) {
    holds(&rt, does(rt.alloc(), Asked::Joins));
}

// The new view that the primary makes of three view changes is taken; of two it makes none.
#[test]
fn what_is_made_is_taken(rt: HostRuntime) {
    holds(&rt, does(rt.alloc(), Asked::Makes));
}
