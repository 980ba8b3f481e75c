//! Changes of one row, or of one replica's checkpoints, in their place among the others.

ghost use Rattle.std.specs.Prelude.{◌≡◌, ◌+◌, ◌*◌, ◌<◌, ◌≤◌, All, IfOk, Some, length, map, slice_set, slice_index_or, replicate, []};
ghost use Rattle.std.specs.Arc.{arc_value};
ghost use Rattle.wire_format.specs.Views.{checkpoint_entry_data};
ghost use Rattle.ordering.specs.Keeping.{IsRow};
ghost use Rattle.ordering.specs.Log.{cut_rows, entered_row, no_row};
ghost use Rattle.ordering.specs.Places.{batch_put, vote_put, checkpoint_put};

use crate::batch::HashedBatch;
use crate::checkpoints::Checkpoints;
use crate::row::Slot;
use crate::votes::{MAX_REPLICAS, Phase, Vote};
use std::alloc::Global;
use std::sync::Arc;
use terms::{NoMemory, ReplicaId};
use wire::CheckpointEntry;

/// Rows for so many numbers.
pub fn no_slots(alloc: Global, count: u64) -> Result<Vec<Slot>, NoMemory>
    ensures { IfOk result (λ slots. slots.items ≡ replicate count no_row) }
{
    let mut slots = Vec::new(alloc);
    for _at in 0..count {
        slots.push(Slot::new(alloc))?;
    }
    Ok(slots)
}

/// The checkpoints of so many replicas.
pub fn no_checkpoints(alloc: Global, count: u8) -> Result<Vec<Checkpoints>, NoMemory>
    ensures { IfOk result (λ checkpoints. checkpoints.items ≡ replicate count []) }
{
    let mut checkpoints = Vec::new(alloc);
    for _at in 0..count {
        checkpoints.push(Checkpoints::new(alloc))?;
    }
    Ok(checkpoints)
}

pub fn put_batch_at(slots: &mut Vec<Slot>, at: usize, batch: Arc<HashedBatch>)
    requires { at < length slots.old.items }
    ensures { slots.new.items ≡ batch_put slots.old.items at (arc_value batch) }
{
    let slot = &mut slots[at];
    slot.put_batch(batch);
}

pub fn add_vote_at(slots: &mut Vec<Slot>, at: usize, phase: Phase, vote: Vote)
    requires at { at < length slots.old.items }
    requires sender { vote.sender.0 < MAX_REPLICAS }
    ensures { slots.new.items ≡ vote_put phase slots.old.items at vote }
{
    let slot = &mut slots[at];
    slot.add_vote(phase, vote);
}

pub fn add_checkpoint_at(lists: &mut Vec<Checkpoints>, at: usize, entry: CheckpointEntry)
    requires { at < length lists.old.items }
    ensures { lists.new.items ≡ checkpoint_put lists.old.items at (checkpoint_entry_data entry) }
{
    let kept = &mut lists[at];
    kept.add(entry);
}

/// Drops the first rows, and appends as many empty ones.
pub fn cut_slots(slots: &mut Vec<Slot>, alloc: Global, count: usize)
    requires { count ≤ length slots.old.items }
    ensures { slots.new.items ≡ cut_rows count slots.old.items }
{
    for at in 0..count {
        slots[at] = Slot::new(alloc);
    }
    slots.rotate_left(count);
}

/// Lets each row enter a later view.
pub fn enter_slots(slots: &mut Vec<Slot>, alloc: Global, faults: u8, me: ReplicaId)
    requires few { faults ≤ 3 }
    requires rows { All (IsRow (3 * faults + 1)) slots.old.items }
    ensures { slots.new.items ≡ map (entered_row faults (3 * faults + 1) me.0) slots.old.items }
{
    for at in 0..slots.len() {
        let slot = &mut slots[at];
        slot.enter_view(alloc, faults, me);
    }
}
