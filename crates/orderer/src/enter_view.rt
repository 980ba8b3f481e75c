//! How the orderer enters a new view.

ghost use Rattle.std.specs.Prelude.{◌≡◌, ◌+◌, ◌^◌, ◌<◌, ◌≤◌, suc, length, option_map, OnOk};
ghost use Rattle.wire_format.specs.Lists.{Each};
ghost use Rattle.wire_format.specs.Spelling.{IsBatch};
ghost use Rattle.view_change.specs.Sets.{texts_of};
ghost use Rattle.orderer.specs.Going.{KeepsParty};
ghost use Rattle.orderer.specs.EnterView.{LogsBatches, MulticastsVotesOf, entering};

use crate::orderer::Orderer;
use events::{Outputs, Stop};
use ordering::HashedBatch;
use std::alloc::Global;
use std::sync::Arc;
use terms::{Number, View};

impl Orderer {
    /// Enters the view. The new view has assigned batches to the numbers up to `last`.
    pub fn enter(&mut self, view: View, last: Number, own: Option<Vec<u8>>)
        ensures { self.new ≡ entering view.0 last.0 (option_map (λ frame. frame.items) own) self.old }
    {
        self.log.keeps();
        self.log.enter(view);
        self.used = last;
        self.assigned = last;
        self.new_view = own;
    }

    /// Logs the batches after the start that are within the marks.
    pub fn log_assigned(
        &mut self,
        start: Number,
        batches: Vec<Arc<HashedBatch>>,
    ) -> Result<(), Stop>
        requires fits { start.0 + length batches.items < 2 ^ 64 }
        requires assigned { start.0 + length batches.items ≤ self.old.assigned }
        requires batches { Each (IsBatch 0) (texts_of batches.items) }
        ensures ok { OnOk result (LogsBatches (suc start.0) (texts_of batches.items) self.old self.new) }
        ensures party { KeepsParty self.old self.new }
    {
        let mut number = start;
        for batch in batches {
            number = Number(number.0 + 1);
            if self.log.is_in_marks(number) {
                self.log_batch(number, batch)?;
            }
        }
        Ok(())
    }

    /// Multicasts the votes that the log asks for, for the numbers after the start, up to the last.
    pub fn multicast_all_votes(
        &mut self,
        alloc: Global,
        start: Number,
        last: Number,
        outputs: &mut Outputs,
    ) -> Result<(), Stop>
        requires { start.0 ≤ last.0 }
        ensures ok { OnOk result (MulticastsVotesOf start.0 last.0
            self.old outputs.old.items self.new outputs.new.items) }
        ensures party { KeepsParty self.old self.new }
    {
        for number in start.0..last.0 {
            self.multicast_votes(alloc, Number(number + 1), outputs)?;
        }
        Ok(())
    }
}
