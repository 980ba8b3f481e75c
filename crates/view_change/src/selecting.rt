//! The primary's selection.

ghost use Rattle.std.specs.Prelude.{◌≡◌, ◌+◌, ◌^◌, ◌<◌, true, map, option_map, IfOk, MatchOption};
ghost use Rattle.std.specs.Arc.{arc_value};
ghost use Rattle.protocol.specs.Replica.Selection as selection;
ghost use Rattle.wire_format.specs.Views.{batch_entry_data, checkpoint_entry_data};
ghost use Rattle.view_change.specs.Filling as spec;
ghost use Rattle.view_change.specs.Filling.{FillsAfterStart, NothingFills, SelectsBelow, NothingBelow};
ghost use Rattle.view_change.specs.Selecting.{are_for, SelectsNewView, NothingSelects};
ghost use Rattle.view_change.specs.Sets.{sized, changes_by_sender, texts_of};

use crate::bounds::END;
use crate::changes::{Change, Selection, Sizes};
use crate::choosing::choose;
use crate::rules::is_start;
use ordering::HashedBatch;
use std::alloc::Global;
use std::sync::Arc;
use terms::{NoMemory, Number, View};
use wire::{Batch, BatchEntry, CheckpointEntry};

// ---- how far the batches go

// The largest number that the entries have up to the limit.
fn largest(entries: &[BatchEntry], limit: u64) -> u64
    ensures { result ≡ selection.largest limit (map batch_entry_data entries.now) }
{
    let [entry, rest @ ..] = entries else {
        return 0;
    };
    let below = largest(rest, limit);
    if entry.number.0 <= limit && below < entry.number.0 {
        entry.number.0
    } else {
        below
    }
}

/// The largest number up to the limit that the set has prepared.
pub(crate) fn largest_of(set: &[Change], limit: u64) -> u64
    ensures { result ≡ selection.largest_of limit (changes_by_sender set.now) }
{
    let [change, rest @ ..] = set else {
        return 0;
    };
    let first = largest(&change.change.prepared, limit);
    let below = largest_of(rest, limit);
    if below < first { first } else { below }
}

// Batches for all numbers after the start; None if no batch may stand at one of them.
fn fill(
    alloc: Global,
    set: &[Change],
    sizes: Sizes,
    view: View,
    start: Number,
    held: &[Arc<HashedBatch>],
    null: &Arc<HashedBatch>,
) -> Result<Option<Vec<Arc<HashedBatch>>>, NoMemory>
    requires set { are_for view.0 (changes_by_sender set.now) (sized sizes) ≡ true }
    requires start { start.0 < 2 ^ 48 }
    requires null { arc_value null.now ≡ selection.null_batch }
    ensures { IfOk result (λ o. MatchOption o
        (NothingFills (sized sizes) view.0 (changes_by_sender set.now) (texts_of held.now) start.0)
        (λ batches. FillsAfterStart (sized sizes) view.0 (changes_by_sender set.now) (texts_of held.now) start.0
        (texts_of batches.items))) }
{
    let largest = largest_of(set, start.0 + 2 * u64::from(sizes.period));
    let end = if largest < start.0 { start.0 } else { largest };
    let mut batches = Vec::new(alloc);
    for number in start.0..end {
        let Some(batch) = choose(set, sizes, view, Number(number + 1), held, null) else {
            return Ok(None);
        };
        batches.push(Arc::try_clone(batch)?)?;
    }
    Ok(Some(batches))
}

// ---- the starts

fn greater(one: Option<CheckpointEntry>, other: Option<CheckpointEntry>) -> Option<CheckpointEntry>
    ensures { option_map checkpoint_entry_data result
        ≡ spec.greater_start (option_map checkpoint_entry_data one) (option_map checkpoint_entry_data other) }
{
    match (one, other) {
        (None, other) => other,
        (one, None) => one,
        (Some(one), Some(other)) => {
            Some(if one.number.0 < other.number.0 {
                other
            } else {
                one
            })
        }
    }
}

// The greatest of the checkpoints below the limit at which a new view may start.
fn start_in(
    set: &[Change],
    sizes: Sizes,
    limit: u64,
    entries: &[CheckpointEntry],
) -> Option<CheckpointEntry>
    ensures { option_map checkpoint_entry_data result
        ≡ spec.start_in (sized sizes) (changes_by_sender set.now) limit (map checkpoint_entry_data entries.now) }
{
    let [entry, rest @ ..] = entries else {
        return None;
    };
    let below = start_in(set, sizes, limit, rest);
    if entry.number.0 < limit && is_start(set, sizes, entry.number, &entry.digest) {
        greater(Some(*entry), below)
    } else {
        below
    }
}

// The same over the checkpoints of the view changes in `some`.
fn start_of(set: &[Change], sizes: Sizes, limit: u64, some: &[Change]) -> Option<CheckpointEntry>
    ensures { option_map checkpoint_entry_data result
        ≡ spec.start_of (sized sizes) (changes_by_sender set.now) limit (changes_by_sender some.now) }
{
    let [change, rest @ ..] = some else {
        return None;
    };
    let first = start_in(set, sizes, limit, &change.change.checkpoints);
    greater(first, start_of(set, sizes, limit, rest))
}

// The selection from the greatest start below the limit from which there is one.
fn select_below(
    alloc: Global,
    set: &[Change],
    sizes: Sizes,
    view: View,
    limit: u64,
    held: &[Arc<HashedBatch>],
    null: &Arc<HashedBatch>,
) -> Result<Option<Selection>, NoMemory>
    requires set { are_for view.0 (changes_by_sender set.now) (sized sizes) ≡ true }
    requires limit { limit < 2 ^ 48 + 1 }
    requires null { arc_value null.now ≡ selection.null_batch }
    ensures { IfOk result (λ o. MatchOption o
        (NothingBelow (sized sizes) view.0 (changes_by_sender set.now) (texts_of held.now) limit)
        (λ s. SelectsBelow (sized sizes) view.0 (changes_by_sender set.now) (texts_of held.now) limit s.start.0 s.root
        (texts_of s.batches.items))) }
{
    let Some(entry) = start_of(set, sizes, limit, set) else {
        return Ok(None);
    };
    match fill(alloc, set, sizes, view, entry.number, held, null)? {
        Some(batches) => Ok(Some(selection_from(&entry, batches))),
        None => select_below(alloc, set, sizes, view, entry.number.0, held, null),
    }
}

fn selection_from(entry: &CheckpointEntry, batches: Vec<Arc<HashedBatch>>) -> Selection
    ensures start { result.start.0 ≡ entry.now.number.0 }
    ensures root { result.root ≡ entry.now.digest }
    ensures batches { result.batches ≡ batches }
{
    let start = entry.number;
    let root = entry.digest;
    Selection {
        start,
        root,
        batches,
    }
}

fn null_batch(alloc: Global) -> Result<Arc<HashedBatch>, NoMemory>
    ensures { IfOk result (λ b. arc_value b ≡ selection.null_batch) }
{
    let text = vec![in alloc; 0]?;
    Ok(Arc::new(alloc, HashedBatch::new(Batch { text }))?)
}

/// The primary's selection over view changes for the view, with the batches that it stores. The view changes are of
/// different replicas, ascending, each within its bounds. More of them never allow less.
///
/// The selection has the greatest start from which there is one. For each number, of the batches that may stand there,
/// it has one of the latest view, then a prepared one, then that of the least digest. The null batch comes last, unless
/// it was proposed before.
///
/// It is None exactly if the rules allow nothing over these view changes, nor over any part of them.
///
/// # Errors
///
/// NoMemory if memory runs out.
pub fn select(
    alloc: Global,
    set: &[Change],
    sizes: Sizes,
    view: View,
    held: &[Arc<HashedBatch>],
) -> Result<Option<Selection>, NoMemory>
    requires order { selection.ascending (changes_by_sender set.now) ≡ true }
    requires set { are_for view.0 (changes_by_sender set.now) (sized sizes) ≡ true }
    ensures { IfOk result (λ o. MatchOption o
        (NothingSelects (sized sizes) view.0 (changes_by_sender set.now) (texts_of held.now))
        (λ s. SelectsNewView (sized sizes) view.0 (changes_by_sender set.now) (texts_of held.now) s.start.0 s.root
        (texts_of s.batches.items))) }
{
    let null = null_batch(alloc)?;
    let selected = select_below(alloc, set, sizes, view, END, held, &null)?;
    match selected {
        Some(selection) => Ok(Some(selection)),
        None => Ok(None),
    }
}
