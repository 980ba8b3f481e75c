//! Copies of view changes and of their frames.

ghost use Rattle.std.specs.Prelude.{◌≡◌, ◌++◌, ◌∷◌, [], option_map, IfOk, OnOk};
ghost use Rattle.view_change.specs.ReceivedData.{frames_for, pairs_for};
ghost use Rattle.view_change.specs.ReceivedView.{held_by, held_data};
ghost use Rattle.view_change.specs.Sets.{change_pair, changes_by_sender};
ghost use Rattle.wire_format.specs.Views.{texts_of, view_change_data};

use crate::changes::{Change, SignedChange};
use std::alloc::Global;
use terms::{NoMemory, View};
use wire::ViewChange;

/// A copy of a view change. NoMemory if memory runs out.
pub fn copy_change(alloc: Global, change: &Change) -> Result<Change, NoMemory>
    ensures { IfOk result (λ copy. change_pair copy ≡ change_pair change.now) }
{
    let sender = change.sender;
    let change = copy_said(alloc, &change.change)?;
    Ok(Change { sender, change })
}

// A copy of the body of a view change.
fn copy_said(alloc: Global, said: &ViewChange) -> Result<ViewChange, NoMemory>
    ensures { IfOk result (λ copy. view_change_data copy ≡ view_change_data said.now) }
{
    let checkpoints = Vec::from_slice(alloc, &said.checkpoints)?;
    let prepared = Vec::from_slice(alloc, &said.prepared)?;
    let pre_prepared = Vec::from_slice(alloc, &said.pre_prepared)?;
    Ok(ViewChange {
        view: said.view,
        low: said.low,
        checkpoints,
        prepared,
        pre_prepared,
    })
}

// Appends a copy of the view change, if it is one for the view.
fn add_change(
    alloc: Global,
    signed: &Option<SignedChange>,
    view: View,
    changes: &mut Vec<Change>,
) -> Result<(), NoMemory>
    ensures { OnOk result (changes_by_sender changes.new.items
        ≡ changes_by_sender changes.old.items ++ pairs_for view.0 (option_map held_data signed.now ∷ [])) }
{
    let Some(signed) = signed else {
        return Ok(());
    };
    if signed.change.change.view.0 != view.0 {
        return Ok(());
    }
    let change = copy_change(alloc, &signed.change)?;
    Ok(changes.push(change)?)
}

/// Copies of the view changes for the view.
pub(crate) fn copy_changes(
    alloc: Global,
    held: &[Option<SignedChange>],
    view: View,
) -> Result<Vec<Change>, NoMemory>
    ensures { IfOk result (λ changes. changes_by_sender changes.items ≡ pairs_for view.0 (held_by held.now)) }
{
    let mut changes = Vec::new(alloc);
    for signed in held {
        add_change(alloc, signed, view, &mut changes)?;
    }
    Ok(changes)
}

// Appends a copy of the view change's frame, if it is one for the view.
fn add_frame(
    alloc: Global,
    signed: &Option<SignedChange>,
    view: View,
    frames: &mut Vec<Vec<u8>>,
) -> Result<(), NoMemory>
    ensures { OnOk result (texts_of frames.new.items
        ≡ texts_of frames.old.items ++ frames_for view.0 (option_map held_data signed.now ∷ [])) }
{
    let Some(signed) = signed else {
        return Ok(());
    };
    if signed.change.change.view.0 != view.0 {
        return Ok(());
    }
    let frame = Vec::from_slice(alloc, &signed.frame)?;
    Ok(frames.push(frame)?)
}

/// Copies of the frames of the view changes for the view.
pub(crate) fn copy_frames(
    alloc: Global,
    held: &[Option<SignedChange>],
    view: View,
) -> Result<Vec<Vec<u8>>, NoMemory>
    ensures { IfOk result (λ frames. texts_of frames.items ≡ frames_for view.0 (held_by held.now)) }
{
    let mut frames = Vec::new(alloc);
    for signed in held {
        add_frame(alloc, signed, view, &mut frames)?;
    }
    Ok(frames)
}
