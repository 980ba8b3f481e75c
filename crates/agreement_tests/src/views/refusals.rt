//! Each refusal of a new view, in a case in which it is the first that applies: four replicas, a checkpoint each 16
//! batches.

use crate::answers::holds;
use crate::views::frames::{Said, add, changes};
use crate::views::received::none_received;
use std::alloc::{AllocError, Global};
use terms::{NoMemory, Number, ReplicaId, View};
use test_bytes::Verdict;
use view_change::{NewViewFault, Received, check_new_view};
use wire::{Batch, NewView};

// The view changes that new views carry, each with its sender.
static SAID: [(u8, Said); 6] = [
    (0, (1, 0, 1)),
    (1, (1, 0, 1)),
    (2, (1, 0, 1)),
    // It is for another view.
    (2, (2, 0, 1)),
    // Its prepared batch is not above its low mark.
    (2, (1, 16, 1)),
    // Its signature is broken below.
    (2, (1, 0, 1)),
];

const OTHER_VIEW: usize = 3;

const OUT_OF_BOUNDS: usize = 4;

const BROKEN: usize = 5;

// The sender of a new view of view 1, and the view and the target of the replica that receives it.
type Stored = (u8, (u64, u64));

// From its primary, for who sent a view change for its view.
const WELL: Stored = (1, (0, 1));

// How a replica receives a new view that carries a frame which is none, and why it refuses the new view.
static UNREAD: [(Stored, NewViewFault); 5] = [
    // It is not from its primary, whatever else is wrong.
    ((2, (1, 2)), NewViewFault::UnknownSender),
    ((0, (0, 0)), NewViewFault::UnknownSender),
    // It is of the own view, or below a view change that was sent, whatever it carries.
    ((1, (1, 1)), NewViewFault::WrongView),
    ((1, (0, 2)), NewViewFault::WrongView),
    // It carries a frame that is no view change.
    (WELL, NewViewFault::BadSignature),
];

// The view changes that a new view carries, the bytes of its root, and those of its batches after number 0.
type Carried = (&'static [usize], u8, &'static [u8]);

static ROWS: [(Stored, Carried, Option<NewViewFault>); 15] = [
    // It is taken, also by who sent no view change for its view.
    (WELL, (&[0, 1, 2], 7, &[1]), None),
    ((1, (0, 0)), (&[0, 1, 2], 7, &[1]), None),
    // It is below a view change that was sent, though it may be selected.
    (
        (1, (0, 2)),
        (&[0, 1, 2], 7, &[1]),
        Some(NewViewFault::WrongView),
    ),
    // A signature is wrong, in few view changes too.
    (WELL, (&[BROKEN], 8, &[0]), Some(NewViewFault::BadSignature)),
    (
        WELL,
        (&[0, 1, BROKEN], 7, &[1]),
        Some(NewViewFault::BadSignature),
    ),
    // There are too few view changes, or too few senders, and nothing else is right.
    (WELL, (&[0, 1], 8, &[0]), Some(NewViewFault::TooFew)),
    (WELL, (&[], 8, &[0]), Some(NewViewFault::TooFew)),
    (WELL, (&[0, 0, 1], 7, &[1]), Some(NewViewFault::TooFew)),
    // One is for another view, or out of its bounds.
    (
        WELL,
        (&[0, 1, OTHER_VIEW], 7, &[1]),
        Some(NewViewFault::NotSelected),
    ),
    (
        WELL,
        (&[0, 1, OUT_OF_BOUNDS], 7, &[1]),
        Some(NewViewFault::NotSelected),
    ),
    // They don't ascend.
    (WELL, (&[1, 0, 2], 7, &[1]), Some(NewViewFault::NotSelected)),
    // No one lists its start.
    (WELL, (&[0, 1, 2], 8, &[1]), Some(NewViewFault::NotSelected)),
    // The null batch stands at a number for which another one was prepared.
    (WELL, (&[0, 1, 2], 7, &[0]), Some(NewViewFault::NotSelected)),
    // Nothing stands there, or one batch more.
    (WELL, (&[0, 1, 2], 7, &[]), Some(NewViewFault::NotSelected)),
    (
        WELL,
        (&[0, 1, 2], 7, &[1, 0]),
        Some(NewViewFault::NotSelected),
    ),
];

fn add_copy(frames: &[Vec<u8>], at: usize, changes: &mut Vec<Vec<u8>>) -> Result<(), AllocError> {
    match frames.get(at) {
        Some(frame) => add(changes, frame.clone()),
        None => Ok(()),
    }
}

fn put_carried(
    frames: &[Vec<u8>],
    carried: &[usize],
    changes: &mut Vec<Vec<u8>>,
) -> Result<(), AllocError> {
    for at in carried {
        add_copy(frames, *at, changes)?;
    }
    Ok(())
}

fn batch_of(alloc: Global, byte: u8) -> Result<Batch, AllocError> {
    let text = vec![in alloc; byte]?;
    Ok(Batch { text })
}

fn put_batches(alloc: Global, bytes: &[u8], batches: &mut Vec<Batch>) -> Result<(), AllocError> {
    for byte in bytes {
        add(batches, batch_of(alloc, *byte))?;
    }
    Ok(())
}

fn fill(
    alloc: Global,
    frames: &[Vec<u8>],
    carried: &[usize],
    bytes: &[u8],
    new: &mut NewView,
) -> Result<(), AllocError> {
    put_carried(frames, carried, &mut new.changes)?;
    put_batches(alloc, bytes, &mut new.batches)
}

fn new_view(
    alloc: Global,
    frames: &[Vec<u8>],
    (carried, root, bytes): Carried,
) -> Result<NewView, AllocError> {
    let mut new = NewView {
        view: View(1),
        changes: Vec::new(alloc),
        start: Number(0),
        root: [root; 32],
        batches: Vec::new(alloc),
    };
    fill(alloc, frames, carried, bytes, &mut new)?;
    Ok(new)
}

// At the second try if memory ran out at the first one.
fn refusal(
    alloc: Global,
    received: &Received,
    (sender, (view, target)): Stored,
    new: &NewView,
) -> Option<NewViewFault> {
    let (view, target, sender) = (View(view), View(target), ReplicaId(sender));
    match check_new_view(alloc, received, view, target, sender, new) {
        Err(NewViewFault::NoMemory) => {
            check_new_view(alloc, received, view, target, sender, new).err()
        }
        first => first.err(),
    }
}

fn are_unread(alloc: Global, received: &Received, new: &NewView) -> bool {
    for &(stored, fault) in &UNREAD {
        if refusal(alloc, received, stored, new) != Some(fault) {
            return false;
        }
    }
    true
}

// What judges a new view.
#[derive(Clone, Copy)]
enum Wanted {
    // It is received and refused as UNREAD says.
    Unread,
    // It comes of this, if of anything.
    Stored(Stored, Option<NewViewFault>),
}

fn is_judged(alloc: Global, received: &Received, new: &NewView, wanted: Wanted) -> bool {
    match wanted {
        Wanted::Unread => are_unread(alloc, received, new),
        Wanted::Stored(stored, fault) => refusal(alloc, received, stored, new) == fault,
    }
}

fn judges(
    alloc: Global,
    received: &Received,
    frames: &[Vec<u8>],
    carried: Carried,
    wanted: Wanted,
) -> Verdict {
    match new_view(alloc, frames, carried) {
        Ok(new) => {
            let is_right = is_judged(alloc, received, &new, wanted);
            drop(new);
            Ok(is_right)
        }
        Err(AllocError) => Err(NoMemory),
    }
}

fn judges_all(alloc: Global, received: &Received, frames: &[Vec<u8>]) -> Verdict {
    for &(stored, carried, wanted) in &ROWS {
        match judges(
            alloc,
            received,
            frames,
            carried,
            Wanted::Stored(stored, wanted),
        ) {
            Ok(true) => {}
            other => return other,
        }
    }
    Ok(true)
}

fn no_frame(alloc: Global) -> Result<Vec<Vec<u8>>, AllocError> {
    let mut none = Vec::new(alloc);
    add(&mut none, b"no frame".to_vec(alloc))?;
    Ok(none)
}

// Of a new view that carries bytes that are no frame.
fn judges_unread(alloc: Global, received: &Received) -> Verdict {
    match no_frame(alloc) {
        Ok(none) => {
            let verdict = judges(alloc, received, &none, (&[0], 8, &[0]), Wanted::Unread);
            drop(none);
            verdict
        }
        Err(AllocError) => Err(NoMemory),
    }
}

fn judges_changes(alloc: Global, received: &Received) -> Verdict {
    match changes(alloc, &SAID) {
        Ok(frames) => {
            let verdict = judges_all(alloc, received, &frames);
            drop(frames);
            verdict
        }
        Err(AllocError) => Err(NoMemory),
    }
}

fn judges_new_views(alloc: Global, are_read: bool) -> Verdict {
    match none_received(alloc) {
        Ok(received) => {
            let verdict = if are_read {
                judges_changes(alloc, &received)
            } else {
                judges_unread(alloc, &received)
            };
            drop(received);
            verdict
        }
        Err(NoMemory) => Err(NoMemory),
    }
}

#[test]
fn new_views_are_refused_unread(rt: HostRuntime) {
    holds(&rt, judges_new_views(rt.alloc(), false));
}

#[test]
fn new_views_are_refused(rt: HostRuntime) {
    holds(&rt, judges_new_views(rt.alloc(), true));
}
