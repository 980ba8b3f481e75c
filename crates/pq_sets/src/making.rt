//! The replica's own view change.

ghost use Rattle.std.specs.Prelude.{◌≡◌, ◌^◌, ◌≤◌, ◌⊎◌, length, IfOk, IfSome, IfNone, IsTrue};
ghost use Rattle.wire_format.specs.Lists.{ascends};
ghost use Rattle.wire_format.specs.Spelling.{IsViewChange, checkpoint_entry_before};
ghost use Rattle.wire_format.specs.Views.{checkpoint_entries_data, view_change_data};

use crate::entries::{note_checkpoints, note_entries};
use crate::pq_sets::PqSets;
use std::alloc::Global;
use terms::{NoMemory, Number, View};
use wire::{CheckpointEntry, ViewChange};

/// The most entries of P, or of Q, that a frame counts.
const MAX_PQ_ENTRIES: usize = 65_535;

/// The view change of a replica for the view: its low mark, its checkpoints, at most three, ascending, and its sets P
/// and Q. None if a set has 65,536 entries or more, which no frame counts.
///
/// # Errors
///
/// NoMemory if memory runs out.
pub fn make(
    alloc: Global,
    view: View,
    low: Number,
    checkpoints: Vec<CheckpointEntry>,
    pq_sets: &PqSets,
) -> Result<Option<ViewChange>, NoMemory>
    requires few { length checkpoints.items ≤ 3 }
    requires order { IsTrue (ascends checkpoint_entry_before (checkpoint_entries_data checkpoints)) }
    ensures made { IfOk result (λ o. IfSome o (λ change. view_change_data change ≡ record {
      view = view.0;
      low = low.0;
      checkpoints = checkpoint_entries_data checkpoints;
      prepared = pq_sets.now.prepared;
      pre_prepared = pq_sets.now.logged;
    })) }
    ensures said { IfOk result (λ o. IfSome o (λ change. IsViewChange (view_change_data change))) }
    ensures none { IfOk result (λ o. IfNone o
        ((2 ^ 16 ≤ length pq_sets.now.prepared) ⊎ (2 ^ 16 ≤ length pq_sets.now.logged))) }
{
    let prepared = pq_sets.prepared(alloc)?;
    let pre_prepared = pq_sets.logged(alloc)?;
    if prepared.len() > MAX_PQ_ENTRIES || pre_prepared.len() > MAX_PQ_ENTRIES {
        return Ok(None);
    }
    note_checkpoints(&checkpoints);
    note_entries(&prepared);
    note_entries(&pre_prepared);
    Ok(Some(ViewChange {
        view,
        low,
        checkpoints,
        prepared,
        pre_prepared,
    }))
}
