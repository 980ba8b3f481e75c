//! The new view that a primary makes.

ghost use Rattle.std.specs.Prelude.{◌≡◌, map, true, IfOk};
ghost use Rattle.protocol.specs.Replica.Selection.{may_select};
ghost use Rattle.view_change.specs.ReceivedData.{frames_for, pairs_for};
ghost use Rattle.view_change.specs.ReceivedView.{judging_configuration};
ghost use Rattle.view_change.specs.Selecting.{meets};
ghost use Rattle.view_change.specs.Sets.{sized, texts_of};
ghost use Rattle.wire_format.specs.Lists.{Each};
ghost use Rattle.wire_format.specs.Spelling.{IsBatch, IsNewView};
ghost use Rattle.wire_format.specs.Views.{batch_text, new_view_data};

use crate::changes::Selection;
use crate::received::Received;
use ordering::HashedBatch;
use std::alloc::Global;
use std::sync::Arc;
use terms::{NoMemory, View};
use wire::{Batch, NewView};
use wire_format::note_digest;

/// The new view of a selection over the stored view changes for the view, with their frames.
///
/// # Errors
///
/// NoMemory if memory runs out.
pub fn assemble(
    alloc: Global,
    received: &Received,
    view: View,
    selected: &Selection,
) -> Result<NewView, NoMemory>
    requires meets { meets (sized received.now.sizes) view.0 (pairs_for view.0 received.now.held) selected.now.start.0
        selected.now.root (texts_of selected.now.batches.items) ≡ true }
    requires batches { Each (IsBatch 0) (texts_of selected.now.batches.items) }
    ensures made { IfOk result (λ new. new_view_data new ≡ record {
      view = view.0;
      changes = frames_for view.0 received.now.held;
      start = selected.now.start.0;
      root = selected.now.root;
      batches = texts_of selected.now.batches.items;
    }) }
    ensures right { IfOk result (λ new. may_select (judging_configuration received.now) (new_view_data new) ≡ true) }
    ensures said { IfOk result (λ new. IsNewView (new_view_data new)) }
{
    note_digest(&selected.root);
    let changes = received.frames_for(alloc, view)?;
    let batches = copy_batches(alloc, &selected.batches)?;
    let start = selected.start;
    let root = selected.root;
    Ok(NewView {
        view,
        changes,
        start,
        root,
        batches,
    })
}

fn copy_batch(alloc: Global, batch: &HashedBatch) -> Result<Batch, NoMemory>
    ensures { IfOk result (λ copy. batch_text copy ≡ batch.now) }
{
    let text = Vec::from_slice(alloc, batch.text())?;
    Ok(Batch { text })
}

fn copy_batches(alloc: Global, batches: &[Arc<HashedBatch>]) -> Result<Vec<Batch>, NoMemory>
    ensures { IfOk result (λ copies. map batch_text copies.items ≡ texts_of batches.now) }
{
    let mut copies = Vec::with_capacity(alloc, batches.len())?;
    for batch in batches {
        copies.push(copy_batch(alloc, batch)?)?;
    }
    Ok(copies)
}
