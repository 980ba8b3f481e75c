//! The sets P and Q that a replica keeps over views.

ghost use Rattle.std.specs.Prelude.{◌≡◌, true};
ghost use Rattle.wire_format.specs.Counts.{ViewChangeFits};
ghost use Rattle.wire_format.specs.Views.{view_change_data};

use crate::answers::holds;
use crate::views::frames::batch;
use ordering::HashedBatch;
use pq_sets::{PqSets, make};
use std::alloc::{AllocError, Global};
use std::sync::Arc;
use terms::{NoMemory, Number, Party, ReplicaId, View};
use test_bytes::{Verdict, all_hold, both};
use wire::{BatchEntry, Body, Message, SIGNATURE_LEN, ViewChange, WireFault, begin_frame};

// Whether the entries are for these numbers and views, in this order.
fn are(entries: &[BatchEntry], rows: &[(u64, u64)]) -> bool {
    entries.len() == rows.len()
        && entries.iter().zip(rows).all(|(entry, (number, view))| entry.number.0 == *number
            && entry.view.0 == *view)
}

// Whether the view change has the latest prepared batches, and all three that were logged.
fn has_made(made: &Option<ViewChange>) -> bool {
    match made {
        Some(made) => {
            are(&made.prepared, [(1, 0), (2, 2)].as_slice()) && made.pre_prepared.len() == 3
        },
        None => false,
    }
}

// Numbers, views and the bytes of batches.
static NOTED: [(u64, u64, u8); 5] = [(2, 0, 1), (1, 0, 2), (2, 1, 3), (2, 2, 1), (2, 1, 1)];

fn note_logged(
    alloc: Global,
    pq_sets: &mut PqSets,
    (number, view, byte): (u64, u64, u8),
) -> Result<(), NoMemory> {
    match batch(alloc, byte) {
        Ok(batch) => pq_sets.note_logged(Number(number), View(view), batch),
        Err(AllocError) => Err(NoMemory),
    }
}

fn note_prepared(
    alloc: Global,
    pq_sets: &mut PqSets,
    (number, view, byte): (u64, u64, u8),
) -> Result<(), NoMemory> {
    match batch(alloc, byte) {
        Ok(batch) => pq_sets.note_prepared(Number(number), View(view), batch),
        Err(AllocError) => Err(NoMemory),
    }
}

fn note_all(alloc: Global, pq_sets: &mut PqSets) -> Result<(), NoMemory> {
    for &row in &NOTED {
        note_logged(alloc, pq_sets, row)?;
        note_prepared(alloc, pq_sets, row)?;
    }
    Ok(())
}

// Whether these are so many.
fn are_so_many<T: Drop>(items: Result<Vec<T>, NoMemory>, count: usize) -> Verdict {
    match items {
        Ok(items) => {
            let is_right = items.len() == count;
            drop(items);
            Ok(is_right)
        }
        Err(NoMemory) => Err(NoMemory),
    }
}

fn makes(alloc: Global, pq_sets: &PqSets) -> Verdict {
    match make(alloc, View(3), Number(0), Vec::new(alloc), pq_sets) {
        Ok(made) => {
            let is_right = has_made(&made);
            drop(made);
            Ok(is_right)
        }
        Err(NoMemory) => Err(NoMemory),
    }
}

fn keeps_second(alloc: Global, pq_sets: &PqSets) -> Verdict {
    match pq_sets.prepared(alloc) {
        Ok(prepared) => {
            let is_right = are(&prepared, [(2, 2)].as_slice());
            drop(prepared);
            Ok(is_right)
        }
        Err(NoMemory) => Err(NoMemory),
    }
}

fn keeps_above(alloc: Global, pq_sets: &mut PqSets, low: u64) -> Verdict {
    pq_sets.cut(Number(low));
    both(
        keeps_second(alloc, pq_sets),
        are_so_many(pq_sets.logged(alloc), 2),
    )
}

fn notes_and_keeps(alloc: Global, pq_sets: &mut PqSets) -> Verdict {
    match note_all(alloc, pq_sets) {
        Ok(()) => all_hold(&[
            makes(alloc, pq_sets),
            are_so_many(pq_sets.batches(alloc), 3),
            keeps_above(alloc, pq_sets, 1),
        ]),
        Err(NoMemory) => Err(NoMemory),
    }
}

fn are_kept(alloc: Global) -> Verdict {
    let mut pq_sets = PqSets::new(alloc);
    let verdict = notes_and_keeps(alloc, &mut pq_sets);
    drop(pq_sets);
    verdict
}

// Of each number the latest prepared batch stays, and of each number and batch the latest view, above the low mark.
#[test]
fn pq_sets_are_kept_over_views(rt: HostRuntime) {
    holds(&rt, are_kept(rt.alloc()));
}

// Each belongs before those that are there.
fn note_one(pq_sets: &mut PqSets, batch: &Arc<HashedBatch>, number: u64) -> Result<(), NoMemory> {
    match Arc::try_clone(batch) {
        Ok(same) => pq_sets.note_logged(Number(number), View(0), same),
        Err(_) => Err(NoMemory),
    }
}

fn note_count(pq_sets: &mut PqSets, batch: &Arc<HashedBatch>, count: u64) -> Result<(), NoMemory> {
    for number in 0..count {
        note_one(pq_sets, batch, count - number)?;
    }
    Ok(())
}

fn note_of_one(alloc: Global, pq_sets: &mut PqSets, count: u64) -> Result<(), NoMemory> {
    match batch(alloc, 1) {
        Ok(batch) => {
            let noted = note_count(pq_sets, &batch, count);
            drop(batch);
            noted
        }
        Err(AllocError) => Err(NoMemory),
    }
}

fn made_of(
    alloc: Global,
    pq_sets: &mut PqSets,
    count: u64,
) -> Result<Option<ViewChange>, NoMemory> {
    match note_of_one(alloc, pq_sets, count) {
        Ok(()) => make(alloc, View(1), Number(0), Vec::new(alloc), pq_sets),
        Err(NoMemory) => Err(NoMemory),
    }
}

// A view change with so many entries in Q, of one batch at different numbers.
fn of_pq_entries(alloc: Global, count: u64) -> Result<Option<ViewChange>, NoMemory> {
    let mut pq_sets = PqSets::new(alloc);
    let made = made_of(alloc, &mut pq_sets, count);
    drop(pq_sets);
    made
}

fn has_room(change: &ViewChange) -> bool
    ensures { result ≡ true → ViewChangeFits (view_change_data change.now) }
{
    change.checkpoints.len() < 256
        && change.prepared.len() < 65_536
        && change.pre_prepared.len() < 65_536
}

// Whether its frame with a signature has this length, or is too long if there is none.
fn has_len(alloc: Global, change: ViewChange, len: Option<usize>) -> Verdict
    requires { ViewChangeFits (view_change_data change) }
{
    let body = Body {
        sender: Party::Replica(ReplicaId(3)),
        message: Message::ViewChange(change),
    };
    // Dropped by a call: a drop at the function's end has a case for each kind of message.
    let frame = begin_frame(alloc, &body, 1 + SIGNATURE_LEN);
    drop(body);
    match frame {
        Ok(frame) => {
            let found = frame.len();
            drop(frame);
            Ok(len == Some(found))
        }
        Err(WireFault::TooLarge) => Ok(len.is_none()),
        Err(WireFault::NoMemory) => Err(NoMemory),
        Err(WireFault::Malformed) => Ok(false),
    }
}

fn have_len(alloc: Global, count: u64, len: Option<usize>) -> Verdict {
    match of_pq_entries(alloc, count) {
        Ok(Some(change)) if has_room(&change) => has_len(alloc, change, len),
        Ok(_) => Ok(false),
        Err(NoMemory) => Err(NoMemory),
    }
}

// 28 bytes and 48 for each entry, and a byte and a signature: 262,144 bytes have room for 5,115 entries.
#[test]
fn a_full_set_q(rt: HostRuntime) {
    holds(&rt, have_len(rt.alloc(), 5_115, Some(28 + 48 * 5_115)));
    holds(&rt, have_len(rt.alloc(), 5_116, None));
}
