//! Signed frames.

ghost use Rattle.std.specs.Prelude.{◌≡◌, true, IfOk, OnOk};
ghost use Rattle.wire_format.specs.Spelling.{IsMessage, is_signed};
ghost use Rattle.wire_format.specs.Views.{message_data};
ghost use Rattle.orderer.specs.PqSets.{MaySign, MulticastsFrame};

use crate::orderer::Orderer;
use events::{Outputs, Stop, emit};
use frame_endpoint::SendFault;
use std::alloc::Global;
use wire::Message;

impl Orderer {
    /// Signs a message with the next leaf. Returns the frame, or None if the keys are spent or the frame would be too
    /// long.
    pub(crate) fn sign(&mut self, alloc: Global, message: Message) -> Result<Option<Vec<u8>>, Stop>
        requires said { IsMessage (message_data message) }
        requires signed { is_signed (message_data message) ≡ true }
        ensures ok { IfOk result (MaySign (message_data message) self.old self.new) }
        ensures same { self.new ≡ record self.old { spent = self.new.spent } }
    {
        match self.endpoint.sign(alloc, message) {
            Ok(frame) => Ok(Some(frame)),
            Err(SendFault::NoMemory) => Err(Stop::NoMemory),
            Err(SendFault::KeysSpent) => Ok(None),
            Err(SendFault::TooLarge) => Ok(None),
        }
    }

    /// Multicasts what stands in a signed frame.
    pub fn multicast_frame(
        &self,
        alloc: Global,
        frame: &[u8],
        outputs: &mut Outputs,
    ) -> Result<(), Stop>
        ensures { OnOk result (MulticastsFrame self.now frame.now outputs.old.items outputs.new.items) }
    {
        emit(outputs, self.endpoint.send_frame_to_others(alloc, frame)?)
    }
}
