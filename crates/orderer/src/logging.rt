//! What the replica keeps for the sets P and Q of its own view changes: the batches that it logged and prepared.

ghost use Rattle.std.specs.Prelude.{◌≡◌, ◌<◌, true, OnOk};
ghost use Rattle.std.specs.Arc.{arc_value};
ghost use Rattle.wire_format.specs.Spelling.{IsBatch};
ghost use Rattle.ordering.specs.Log.{is_in_marks};
ghost use Rattle.orderer.specs.Going.{KeepsParty};
ghost use Rattle.orderer.specs.PqSets.{NotesPrepared, LogsBatch};

use crate::orderer::Orderer;
use events::Stop;
use ordering::HashedBatch;
use std::sync::Arc;
use terms::Number;

impl Orderer {
    /// Logs a batch, and notes it for later view changes.
    pub(crate) fn log_batch(&mut self, number: Number, batch: Arc<HashedBatch>) -> Result<(), Stop>
        requires within { is_in_marks self.old.log number.0 ≡ true }
        requires batch { IsBatch 0 (arc_value batch) }
        requires some { self.old.assigned < number.0 → IsBatch 1 (arc_value batch) }
        ensures ok { OnOk result (LogsBatch number.0 (arc_value batch) self.old self.new) }
        ensures party { KeepsParty self.old self.new }
        ensures received { self.new.received ≡ self.old.received }
    {
        self.log.keeps();
        let view = self.log.view();
        let noted = Arc::try_clone(&batch)?;
        self.pq_sets.note_logged(number, view, noted)?;
        self.log.put_batch(number, batch);
        Ok(())
    }

    /// Notes that the logged batch of a number is prepared.
    pub(crate) fn note_prepared(&mut self, number: Number) -> Result<(), Stop>
        ensures ok { OnOk result (NotesPrepared number.0 self.old self.new) }
        ensures party { KeepsParty self.old self.new }
    {
        let view = self.log.view();
        let Some(batch) = self.log.logged_batch(number) else {
            return Ok(());
        };
        let batch = Arc::try_clone(batch)?;
        self.pq_sets.note_prepared(number, view, batch)?;
        Ok(())
    }
}
