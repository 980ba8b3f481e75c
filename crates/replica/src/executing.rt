//! Execution of committed batches.

ghost use Rattle.std.specs.Prelude.{IfOk, OnOk};
ghost use Rattle.replica.specs.Going.{ExecutesAll, ExecutesTurn, GoesOnWith, IsOneParty};

use crate::both_parts::BothParts;
use events::{Outputs, Stop};
use std::alloc::Global;
use std::sync::Arc;
use terms::Number;

impl BothParts {
    /// Multicasts the votes that the log asks for, for one number, and executes all that is committed then.
    pub(crate) fn advance(
        &mut self,
        alloc: Global,
        number: Number,
        outputs: &mut Outputs,
    ) -> Result<(), Stop>
        ensures ok { OnOk result
            (GoesOnWith number.0 self.old outputs.old.items self.new outputs.new.items) }
        ensures party { IsOneParty self.old self.new }
    {
        self.orderer.multicast_votes(alloc, number, outputs)?;
        self.execute_committed(alloc, outputs)
    }

    /// Executes batches as long as the next one is committed. The numbers within the marks at the beginning bound the
    /// turns: if the marks move meanwhile, no batch is committed for the numbers that come into them.
    pub(crate) fn execute_committed(
        &mut self,
        alloc: Global,
        outputs: &mut Outputs,
    ) -> Result<(), Stop>
        ensures ok { OnOk result
            (ExecutesAll self.old outputs.old.items self.new outputs.new.items) }
        ensures party { IsOneParty self.old self.new }
    {
        for _ in 0..self.orderer.span() {
            if !self.execute_next(alloc, outputs)? {
                return Ok(());
            }
        }
        Ok(())
    }

    // Executes the next batch if it is committed, replies to its requests and multicasts the checkpoint that is due.
    // Returns whether the batch is committed.
    fn execute_next(&mut self, alloc: Global, outputs: &mut Outputs) -> Result<bool, Stop>
        ensures ok { IfOk result
            (ExecutesTurn self.old outputs.old.items self.new outputs.new.items) }
        ensures party { IsOneParty self.old self.new }
    {
        let next = Number(self.desk.number().0 + 1);
        let Some(batch) = self.orderer.next_batch(next) else {
            return Ok(false);
        };
        let batch = Arc::try_clone(batch)?;
        self.desk.execute(alloc, batch.text(), outputs)?;
        self.multicast_due_checkpoint(alloc, outputs)?;
        Ok(true)
    }
}
