//! Proof hints on the entries that the program holds.

ghost use Rattle.std.specs.Prelude.{map};
ghost use Rattle.wire_format.specs.Lists.{Each};
ghost use Rattle.wire_format.specs.Spelling.{IsBatchEntry, IsCheckpointEntry};
ghost use Rattle.wire_format.specs.Views.{batch_entry_data, checkpoint_entry_data};

use wire::{BatchEntry, CheckpointEntry};
use wire_format::note_digest;

/// Tells a proof that a message may have each of these batch entries.
pub(crate) fn note_entries(entries: &[BatchEntry])
    ensures { Each IsBatchEntry (map batch_entry_data entries.now) }
{
    for entry in entries {
        note_entry(entry);
    }
}

fn note_entry(entry: &BatchEntry)
    ensures { IsBatchEntry (batch_entry_data entry.now) }
{
    note_digest(&entry.digest);
    let _number = entry.number.0;
    let _view = entry.view.0;
}

/// Tells a proof that a message may have each of these checkpoints.
pub(crate) fn note_checkpoints(entries: &[CheckpointEntry])
    ensures { Each IsCheckpointEntry (map checkpoint_entry_data entries.now) }
{
    for entry in entries {
        note_checkpoint(entry);
    }
}

fn note_checkpoint(entry: &CheckpointEntry)
    ensures { IsCheckpointEntry (checkpoint_entry_data entry.now) }
{
    note_digest(&entry.digest);
    let _number = entry.number.0;
}
