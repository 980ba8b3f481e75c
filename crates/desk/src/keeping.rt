//! The states that the desk keeps at checkpoints.

ghost use Rattle.std.specs.Prelude.{◌≡◌, ◌<◌, ◌≤◌, length, IsTrue, OnErr, OnOk, option_map, IfOk};
ghost use Rattle.wire_format.specs.Lists.{Each};
ghost use Rattle.wire_format.specs.Views.{checkpoint_entries_data, checkpoint_entry_data};
ghost use Rattle.protocol.specs.Replica.State.{pages_of};
ghost use Rattle.replica_histories.specs.Views.{entries_of};
ghost use Rattle.desk.specs.Keeping.{HaveShortPages, is_ascending};
ghost use Rattle.desk.specs.Desking.{MayKeep, desk_above, due_entry, checkpoint_is_due, keeping_due, keeping_state};

use crate::desk::Desk;
use execution::Executed;
use partition_tree::Snapshot;
use std::alloc::Global;
use terms::{NoMemory, Number};
use wire::CheckpointEntry;

impl Desk {
    /// Keeps the executed state if it is to have a checkpoint. It is above all kept states. NoMemory if memory runs
    /// out.
    pub(crate) fn keep_due(&mut self) -> Result<(), NoMemory>
        requires newer { Each (λ x. x.number < self.old.executed.state.number) self.old.snapshots }
        ensures ok { OnOk result (self.new ≡ keeping_due self.old) }
        ensures err { OnErr result (self.new ≡ self.old) }
    {
        self.keeps();
        if !self.is_checkpoint_due() {
            return Ok(());
        }
        self.keep_state()
    }

    /// Keeps the executed state. Only the pages that requests may have changed since the last checkpoint are written
    /// and hashed. NoMemory if memory runs out.
    pub(crate) fn keep_state(&mut self) -> Result<(), NoMemory>
        requires may { MayKeep self.old }
        ensures ok { OnOk result (self.new ≡ keeping_state self.old) }
        ensures err { OnErr result (self.new ≡ self.old) }
    {
        let executed = &mut *self.executed;
        let number = executed.number();
        let pages = pages_of(executed)?;
        self.snapshots.keep(number, pages)
    }

    // Whether the executed state is to have a checkpoint: its number is a multiple of the period.
    fn is_checkpoint_due(&self) -> bool
        ensures { result ≡ checkpoint_is_due self.now }
    {
        self.executed.number().0 % u64::from(self.period) == 0
    }

    /// The checkpoint of the executed state, if it is to have one. That state is then the newest kept one.
    pub fn due_checkpoint(&self) -> Option<CheckpointEntry>
        ensures { option_map checkpoint_entry_data result ≡ due_entry self.now }
    {
        if !self.is_checkpoint_due() {
            return None;
        }
        self.snapshots.newest()
    }

    /// The checkpoints that a view change lists: those of the kept states.
    pub fn entries(&self, alloc: Global) -> Result<Vec<CheckpointEntry>, NoMemory>
        ensures are { IfOk result (λ entries. checkpoint_entries_data entries ≡ entries_of self.now.snapshots) }
        ensures few { length (entries_of self.now.snapshots) ≤ 3 }
        ensures order { IsTrue (is_ascending (entries_of self.now.snapshots)) }
    {
        self.snapshots.entries(alloc)
    }

    /// Drops the states below the low mark.
    pub fn drop_below(&mut self, low: Number)
        ensures { self.new ≡ desk_above low.0 self.old }
    {
        self.snapshots.drop_below(low);
    }
}

/// The pages of the executed state. NoMemory if memory runs out.
pub(crate) fn pages_of(executed: &mut Executed) -> Result<Snapshot, NoMemory>
    ensures pages { IfOk result (λ pages. pages ≡ pages_of executed.old.state) }
    ensures short { IfOk result (λ pages. HaveShortPages pages) }
    ensures same { executed.new ≡ executed.old }
{
    executed.is_state();
    executed.checkpoint()
}
