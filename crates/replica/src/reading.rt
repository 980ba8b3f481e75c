//! Reads, which the replica answers beside the order, in their event.

ghost use Rattle.std.specs.Prelude.{◌≡◌, true, [], IfOk};
ghost use Rattle.wire.specs.Marks.{asks_read};
ghost use Rattle.replica.specs.Going.{IsOneParty};
ghost use Rattle.replica.specs.Entering.{TakesBytes};

use crate::both_parts::BothParts;
use crate::taking::DueWork;
use bumpalo::Bump;
use events::{Outputs, Stop};
use std::alloc::Global;

impl BothParts {
    /// Answers the read that bytes with its marks ask for, if they are an authentic read. The arena for its template
    /// lasts for this call.
    pub(crate) fn on_read(
        &mut self,
        alloc: Global,
        bytes: &[u8],
        outputs: &mut Outputs,
    ) -> Result<DueWork, Stop>
        requires first { outputs.old.items ≡ [] }
        requires marks { asks_read bytes.now ≡ true }
        ensures ok { IfOk result (λ due_work. TakesBytes bytes.now self.old
            due_work self.new outputs.new.items) }
        ensures party { IsOneParty self.old self.new }
    {
        self.are_one();
        let mut arena = Bump::new(alloc);
        self.desk.read(alloc, bytes, &mut arena, outputs)?;
        Ok(DueWork::Nothing)
    }
}
