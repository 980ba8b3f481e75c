//! How the replica enters a new view.

ghost use Rattle.std.specs.Prelude.{◌≡◌, ◌^◌, ◌<◌, ◌≤◌, length, option_map, OnOk};
ghost use Rattle.wire_format.specs.Lists.{Each};
ghost use Rattle.wire_format.specs.Spelling.{IsBatch};
ghost use Rattle.wire_format.specs.Views.{checkpoint_entry_data};
ghost use Rattle.view_change.specs.Sets.{texts_of};
ghost use Rattle.replica.specs.Going.{IsOneParty};
ghost use Rattle.replica.specs.EnteringViews.{EntersView, FetchesStart};

use crate::both_parts::BothParts;
use events::{Outputs, Stop};
use std::alloc::Global;
use terms::{Number, View};
use view_change::Selection;
use wire::CheckpointEntry;

impl BothParts {
    /// Enters the view, which begins with this selection. `own` has the frame if the replica made the new view itself.
    /// Then multicasts the votes that the log asks for.
    pub(crate) fn enter(
        &mut self,
        alloc: Global,
        view: View,
        selection: Selection,
        own: Option<Vec<u8>>,
        outputs: &mut Outputs,
    ) -> Result<(), Stop>
        requires start { selection.start.0 < 2 ^ 48 }
        requires few { length selection.batches.items ≤ 32 }
        requires batches { Each (IsBatch 0) (texts_of selection.batches.items) }
        ensures ok { OnOk result (EntersView view.0 (record { number = selection.start.0; digest = selection.root })
            (texts_of selection.batches.items) (option_map (λ frame. frame.items) own)
            self.old outputs.old.items self.new outputs.new.items) }
        ensures party { IsOneParty self.old self.new }
    {
        let start = CheckpointEntry {
            number: selection.start,
            digest: selection.root,
        };
        let last = Number(start.number.0 + selection.batches.len() as u64);
        self.desk.note_assigned(alloc, &selection.batches)?;
        self.orderer.enter(view, last, own);
        self.move_marks(start.number);
        self.orderer.log_assigned(start.number, selection.batches)?;
        self.fetch_start(alloc, &start, outputs)?;
        self.orderer
            .multicast_all_votes(alloc, start.number, last, outputs)
    }

    // Fetches the state at the start, if it is ahead of the executed state and of an open transfer.
    fn fetch_start(
        &mut self,
        alloc: Global,
        start: &CheckpointEntry,
        outputs: &mut Outputs,
    ) -> Result<(), Stop>
        ensures ok { OnOk result (FetchesStart (checkpoint_entry_data start.now) self.old outputs.old.items
            self.new outputs.new.items) }
        ensures orderer { self.new.orderer ≡ self.old.orderer }
        ensures party { IsOneParty self.old self.new }
    {
        if !self.desk.set_target(alloc, start)? {
            return Ok(());
        }
        self.multicast_fetch(alloc, outputs)
    }
}
