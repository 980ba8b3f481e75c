//! The checkpoints of one replica.

ghost use Rattle.std.specs.Prelude.{◌≡◌, ◌≤◌, [], map, length};
ghost use Rattle.std.specs.List.{list_any};
ghost use Rattle.wire_format.specs.Views.{checkpoint_entry_data};
ghost use Rattle.ordering.specs.Checkpoints.{with_checkpoint, root_at, lists_checkpoint};
ghost use Rattle.ordering.specs.Places.{place_in, stands_at, is_entry};

use smallvec::SmallVec;
use std::alloc::Global;
use std::marker::Model;
use terms::{Digest, Number};
use wire::CheckpointEntry;

/// At most so many checkpoints of a replica are kept.
const KEPT: usize = 3;

/// The checkpoints of one replica: those of the three largest numbers, the largest first. There is room for these and
/// for a new one from the start, so no checkpoint takes memory.
#[derive(Drop)]
pub struct Checkpoints {
    entries: SmallVec<CheckpointEntry, 4>,
}

impl Model for Checkpoints {
    ghost use Rattle.std.specs.Prelude.{◌≡◌, ◌≤◌, List, map, length};
    ghost use Rattle.wire_format.specs.Messages.{CheckpointEntryData};
    ghost use Rattle.wire_format.specs.Views.{checkpoint_entry_data};

    ghost Value = { List CheckpointEntryData };

    ghost view = { λ c. map checkpoint_entry_data c.entries.items };

    ghost invariant = { λ c. (length c.entries.items ≤ 3) × (c.entries.capacity ≡ 4) };
}

impl Checkpoints {
    pub fn new(alloc: Global) -> Checkpoints
        ensures { result ≡ [] }
    {
        Checkpoints {
            entries: SmallVec::new(alloc),
        }
    }

    /// Adds a checkpoint, if it is one of the three largest. Of one number the earlier stays.
    pub fn add(&mut self, entry: CheckpointEntry)
        ensures { self.new ≡ with_checkpoint (checkpoint_entry_data entry) self.old }
    {
        let place = place_of(self.entries.as_slice(), entry.number);
        if is_at(self.entries.as_slice(), place, entry.number) {
            return;
        }
        if self.entries.insert(place, entry).is_ok() {
            self.entries.truncate(KEPT);
        }
    }

    /// The root of the checkpoint of this number.
    pub fn root_at(&self, number: Number) -> Option<Digest>
        ensures { result ≡ root_at self.now number.0 }
    {
        for entry in self.entries.as_slice() {
            if entry.number == number {
                return Some(entry.digest);
            }
        }
        None
    }

    /// Whether there is a checkpoint of this number and root.
    pub fn has(&self, entry: &CheckpointEntry) -> bool
        ensures { result ≡ lists_checkpoint (checkpoint_entry_data entry.now) self.now }
    {
        has_entry(self.entries.as_slice(), entry)
    }
}

fn has_entry(entries: &[CheckpointEntry], wanted: &CheckpointEntry) -> bool
    ensures { result ≡ list_any (is_entry wanted.now) entries.now }
{
    entries.iter().any(|entry| entry.number.0 == wanted.number.0 && entry.digest == wanted.digest)
}

// The place of a checkpoint of the number: before the first whose number is not larger.
fn place_of(entries: &[CheckpointEntry], number: Number) -> usize
    ensures place { result ≡ place_in number.0 (map checkpoint_entry_data entries.now) }
    ensures within { result ≤ length entries.now }
{
    for (place, entry) in entries.iter().enumerate() {
        if entry.number.0 <= number.0 {
            return place;
        }
    }
    entries.len()
}

// Whether a checkpoint of the number stands at the place.
fn is_at(entries: &[CheckpointEntry], place: usize, number: Number) -> bool
    ensures { result ≡ stands_at place number.0 (map checkpoint_entry_data entries.now) }
{
    place < entries.len() && entries[place].number.0 == number.0
}
