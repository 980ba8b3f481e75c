//! The states that the replica keeps for others to fetch.

ghost use Rattle.std.specs.Prelude.{◌≡◌, ◌≢◌, ◌<◌, ◌≤◌, [], length, IfNone, IfOk, IfSome, IsTrue, OnErr, OnOk, option_map};
ghost use Rattle.wire_format.specs.Lists.{Each};
ghost use Rattle.wire_format.specs.Views.{checkpoint_entries_data, checkpoint_entry_data};
ghost use Rattle.protocol.specs.System.Trace.{Has};
ghost use Rattle.replica_histories.specs.Desk.{kept_from};
ghost use Rattle.replica_histories.specs.Views.{entries_of};
ghost use Rattle.desk.specs.Keeping.{is_ascending};
ghost use Rattle.desk.specs.Desking.{newest_entry};
ghost use Rattle.desk.specs.Keeping.{AreFew, HaveShortPages, newest_with};

use partition_tree::Snapshot;
use std::alloc::Global;
use std::marker::Model;
use terms::{NoMemory, Number};
use wire::CheckpointEntry;

/// The state of a number, by its pages.
#[derive(Drop)]
pub(crate) struct KeptState {
    pub(crate) number: Number,
    pub(crate) pages: Snapshot,
    ghost short: { HaveShortPages pages },
}

/// At most so many states are kept.
const KEPT: usize = 3;

/// The states at checkpoints from the low mark on, at most three, the newest first. They share equal pages.
///
/// Their numbers are those of checkpoints within the marks, and the low mark. So none is dropped for lack of room.
#[derive(Drop)]
pub(crate) struct Snapshots {
    kept: Vec<KeptState>,
}

impl Model for Snapshots {
    ghost use Rattle.std.specs.Prelude.{List};
    ghost use Rattle.replica_histories.specs.Desk.{Snapshot as SnapshotData};
    ghost use Rattle.desk.specs.SnapshotsView.{snapshots_data};

    ghost Value = { List SnapshotData };

    ghost view = { snapshots_data };

    ghost use Rattle.desk.specs.Keeping.{AreFew};

    ghost invariant = { λ s. AreFew (snapshots_data s) };
}

impl Snapshots {
    /// No states.
    pub(crate) fn new(alloc: Global) -> Snapshots
        ensures { result ≡ [] }
    {
        Snapshots {
            kept: Vec::new(alloc),
        }
    }

    /// Tells a proof that they are few. Does nothing.
    pub(crate) fn are_few(&self)
        ensures { AreFew self.now }
    {
        let _count = self.kept.len();
    }

    /// Keeps the state of a number above all kept ones, beside the newest two. NoMemory if memory runs out, and nothing
    /// changes then.
    pub(crate) fn keep(&mut self, number: Number, pages: Snapshot) -> Result<(), NoMemory>
        requires newer { Each (λ x. x.number < number.0) self.old }
        requires short { HaveShortPages pages }
        ensures ok { OnOk result (self.new ≡ newest_with (record { number = number.0; pages = pages }) self.old) }
        ensures err { OnErr result (self.new ≡ self.old) }
    {
        self.kept.insert(0, KeptState { number, pages })?;
        self.kept.truncate(KEPT);
        Ok(())
    }

    /// Drops all states.
    pub(crate) fn clear(&mut self)
        ensures { self.new ≡ [] }
    {
        self.kept.clear();
    }

    /// The pages of the state of this number, if it is kept. Takes no memory.
    pub(crate) fn of(&self, number: Number) -> Option<&Snapshot>
        ensures some { IfSome result
            (λ pages. Has (λ x. x ≡ record { number = number.0; pages = pages.now }) self.now) }
        ensures short { IfSome result (λ pages. HaveShortPages pages.now) }
        ensures none { IfNone result (Each (λ x. x.number ≢ number.0) self.now) }
    {
        for state in &self.kept {
            if state.number.0 == number.0 {
                return Some(&state.pages);
            }
        }
        None
    }

    /// The number and root of the newest state. Takes no memory.
    pub(crate) fn newest(&self) -> Option<CheckpointEntry>
        ensures { option_map checkpoint_entry_data result ≡ newest_entry self.now }
    {
        match self.kept.as_slice() {
            [newest, ..] => Some(CheckpointEntry {
                number: newest.number,
                digest: newest.pages.root(),
            }),
            [] => None,
        }
    }

    /// The numbers and roots of all states, ascending. NoMemory if memory runs out.
    pub(crate) fn entries(&self, alloc: Global) -> Result<Vec<CheckpointEntry>, NoMemory>
        ensures are { IfOk result (λ entries. checkpoint_entries_data entries ≡ entries_of self.now) }
        ensures few { length (entries_of self.now) ≤ 3 }
        ensures order { IsTrue (is_ascending (entries_of self.now)) }
    {
        let mut entries = Vec::new(alloc);
        for state in &self.kept {
            let entry = CheckpointEntry {
                number: state.number,
                digest: state.pages.root(),
            };
            entries.insert(0, entry)?;
        }
        Ok(entries)
    }

    /// Drops the states below the low mark.
    pub(crate) fn drop_below(&mut self, low: Number)
        ensures { self.new ≡ kept_from low.0 self.old }
    {
        self.kept.retain(|state| state.number.0 >= low.0);
    }
}
