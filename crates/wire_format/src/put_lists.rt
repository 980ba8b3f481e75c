//! View changes and new views, appended to bytes.

ghost use Rattle.std.specs.Prelude.{◌<◌, ◌^◌, length, map};
ghost use Rattle.wire_format.specs.Lists.{Each};
ghost use Rattle.wire_format.specs.Views.{checkpoint_entry_data, batch_entry_data, batch_text, view_change_data};
ghost use Rattle.wire_format.specs.Views.{new_view_data, texts_of};
ghost use Rattle.wire_format.specs.Spelling.{pieces_spelling, batches_spelling};
ghost use Rattle.wire_format.specs.Counts.{ViewChangeFits, NewViewFits};
ghost use Rattle.wire_format.specs.Appends.{Appends};
ghost use Rattle.wire_format.specs.Texts.{checkpoint_entry_text, batch_entry_text, checkpoint_entries_text};
ghost use Rattle.wire_format.specs.Texts.{batch_entries_text, view_change_text, new_view_text};

use crate::messages::{Batch, BatchEntry, CheckpointEntry, NewView, ViewChange};
use crate::put::{put_piece, put_u16, put_u64};
use terms::NoMemory;

/// Appends the fields of the view change.
pub fn put_view_change(change: &ViewChange, out: &mut Vec<u8>) -> Result<(), NoMemory>
    requires { ViewChangeFits (view_change_data change.now) }
    ensures { Appends (view_change_text change.now) out.old out.new result }
{
    put_u64(change.view.0, out)?;
    put_u64(change.low.0, out)?;
    put_checkpoint_entries(&change.checkpoints, out)?;
    put_batch_entries(&change.prepared, out)?;
    put_batch_entries(&change.pre_prepared, out)
}

fn put_checkpoint_entry(entry: &CheckpointEntry, out: &mut Vec<u8>) -> Result<(), NoMemory>
    ensures { Appends (checkpoint_entry_text entry.now) out.old out.new result }
{
    put_u64(entry.number.0, out)?;
    Ok(out.extend_from_slice(&entry.digest)?)
}

fn put_batch_entry(entry: &BatchEntry, out: &mut Vec<u8>) -> Result<(), NoMemory>
    ensures { Appends (batch_entry_text entry.now) out.old out.new result }
{
    put_u64(entry.number.0, out)?;
    out.extend_from_slice(&entry.digest)?;
    put_u64(entry.view.0, out)
}

fn put_checkpoint_entries(entries: &[CheckpointEntry], out: &mut Vec<u8>) -> Result<(), NoMemory>
    requires { length (map checkpoint_entry_data entries.now) < 2 ^ 8 }
    ensures { Appends (checkpoint_entries_text entries.now) out.old out.new result }
{
    out.push(entries.len() as u8)?;
    for entry in entries {
        put_checkpoint_entry(entry, out)?;
    }
    Ok(())
}

fn put_batch_entries(entries: &[BatchEntry], out: &mut Vec<u8>) -> Result<(), NoMemory>
    requires { length (map batch_entry_data entries.now) < 2 ^ 16 }
    ensures { Appends (batch_entries_text entries.now) out.old out.new result }
{
    put_u16(entries.len() as u16, out)?;
    for entry in entries {
        put_batch_entry(entry, out)?;
    }
    Ok(())
}

/// Appends the fields of the new view.
pub fn put_new_view(new_view: &NewView, out: &mut Vec<u8>) -> Result<(), NoMemory>
    requires { NewViewFits (new_view_data new_view.now) }
    ensures { Appends (new_view_text new_view.now) out.old out.new result }
{
    put_u64(new_view.view.0, out)?;
    put_frames(&new_view.changes, out)?;
    put_u64(new_view.start.0, out)?;
    out.extend_from_slice(&new_view.root)?;
    put_batches(&new_view.batches, out)
}

/// Appends the count of the frames, and then the length and the bytes of each.
pub fn put_frames(frames: &[Vec<u8>], out: &mut Vec<u8>) -> Result<(), NoMemory>
    requires few { length (texts_of frames.now) < 2 ^ 8 }
    requires short { Each (λ frame. length frame < 2 ^ 32) (texts_of frames.now) }
    ensures { Appends (pieces_spelling (texts_of frames.now)) out.old out.new result }
{
    out.push(frames.len() as u8)?;
    for frame in frames {
        put_piece(frame, out)?;
    }
    Ok(())
}

fn put_batches(batches: &[Batch], out: &mut Vec<u8>) -> Result<(), NoMemory>
    requires { length (map batch_text batches.now) < 2 ^ 8 }
    ensures { Appends (batches_spelling (map batch_text batches.now)) out.old out.new result }
{
    out.push(batches.len() as u8)?;
    for batch in batches {
        out.extend_from_slice(&batch.text)?;
    }
    Ok(())
}
