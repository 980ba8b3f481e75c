//! Reads, which the desk answers beside the order.

ghost use Rattle.std.specs.Prelude.{◌≡◌, true, OnOk};
ghost use Rattle.wire.specs.Marks.{asks_read};
ghost use Rattle.desk.specs.Reading.{AnswersBytes};

use crate::desk::Desk;
use bumpalo::Bump;
use events::{Outputs, Stop};
use read_only::{ReadFault, Shelf, answer, authenticate_read};
use std::alloc::Global;

impl Desk {
    /// Answers the read that bytes with its marks ask for, if they are an authentic read, from the executed state. The
    /// arena is for its template alone. Nothing changes.
    pub fn read(
        &mut self,
        alloc: Global,
        bytes: &[u8],
        arena: &mut Bump,
        outputs: &mut Outputs,
    ) -> Result<(), Stop>
        requires { asks_read bytes.now ≡ true }
        ensures ok { OnOk result (AnswersBytes self.old bytes.now outputs.old.items outputs.new.items) }
        ensures same { self.new ≡ self.old }
    {
        let Some(request) = authenticate_read(&mut *self.ring, self.me, bytes) else {
            return Ok(());
        };
        let executed = &*self.executed;
        let shelf = Shelf {
            space: executed.space(),
            number: executed.number(),
        };
        let reply = match answer(alloc, &shelf, &request, arena) {
            Ok(reply) => reply,
            Err(ReadFault::NotReadOnly) => return Ok(()),
            Err(ReadFault::NoMemory) => return Err(Stop::NoMemory),
        };
        self.reply(alloc, reply, outputs)?;
        Ok(())
    }
}
