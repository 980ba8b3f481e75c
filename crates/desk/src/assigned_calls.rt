//! The calls that have a number in a new view from its beginning.

ghost use Rattle.std.specs.Prelude.{◌≡◌, OnOk};
ghost use Rattle.wire_format.specs.Words.{requests_of};
ghost use Rattle.view_change.specs.Sets.{texts_of};
ghost use Rattle.desk.specs.State.{IsSameDesk};
ghost use Rattle.desk.specs.Assigned.{AddsCalls, NotesAssigned};

use crate::desk::Desk;
use crate::waiting::AssignedCall;
use events::Stop;
use execution::{Call, read_call};
use ordering::HashedBatch;
use std::alloc::Global;
use std::sync::Arc;
use wire::requests;

impl Desk {
    /// Notes that the calls in these batches, and no others, have a number in the new view.
    pub fn note_assigned(&mut self, alloc: Global, batches: &[Arc<HashedBatch>]) -> Result<(), Stop>
        ensures ok { OnOk result (NotesAssigned (texts_of batches.now) self.old self.new) }
        ensures party { IsSameDesk self.old self.new }
    {
        let mut calls = Vec::new(alloc);
        for batch in batches {
            self.add_calls(alloc, batch.text(), &mut calls)?;
        }
        self.waiting.begin_view(calls);
        Ok(())
    }

    // Appends the calls of this batch.
    fn add_calls(
        &self,
        alloc: Global,
        text: &[u8],
        calls: &mut Vec<AssignedCall>,
    ) -> Result<(), Stop>
        ensures { OnOk result
            (AddsCalls self.now.executed.clients (requests_of text.now) calls.old.items calls.new.items) }
    {
        let frames = requests(text);
        for frame in frames.as_slice() {
            if let Some(call) = read_call(alloc, frame, self.executed.clients())? {
                calls.push(assigned_call(call))?;
            }
        }
        Ok(())
    }
}

// The call without its operation. The operation is dropped here alone.
fn assigned_call(call: Call<Global>) -> AssignedCall
    ensures { result ≡ record { client = call.client; timestamp = call.timestamp } }
{
    AssignedCall {
        client: call.client,
        timestamp: call.timestamp,
    }
}
