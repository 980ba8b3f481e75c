//! The outputs of a step.

ghost use Rattle.std.specs.Prelude.{◌≡◌, ◌++◌, ◌∷◌, [], OnOk, IfErr};

use crate::shared_bytes::SharedBytes;
use std::alloc::{AllocError, AllocFailed, Global};
use terms::{Digest, NoMemory, Number, Party, Timestamp};
use thiserror::Error;
use tuple_codec::Answer;

/// An output of a step.
#[derive(Drop)]
pub enum Output {
    /// A replica executed the batch of this text at the number.
    Executed(Number, SharedBytes),
    /// A replica installed the state of this number and root.
    Installed(Number, Digest),
    /// The bytes of a frame, and its receivers.
    Send(Vec<Party>, SharedBytes),
    /// A client accepted the answer to its call of this timestamp.
    Accepted(Timestamp, Answer<Global>),
}

/// The outputs of one step, in order.
pub type Outputs = Vec<Output>;

/// Why a step has no outputs.
#[derive(Clone, Copy, Debug, PartialEq, Eq, Error)]
pub enum Stop {
    /// Memory ran out in the step, and the party stopped.
    #[error("out of memory")]
    NoMemory,
    /// The party had stopped before.
    #[error("stopped")]
    Stopped,
}

impl From<AllocError> for Stop {
    ghost use Rattle.std.specs.Prelude.{◌≡◌};
    ghost use Rattle.events.specs.declared.output.Stop.TheVariants.{NoMemory as no_memory};

    ghost from_gives = { λ _ stop. stop ≡ no_memory };

    fn from(_failed: AllocError) -> Stop {
        Stop::NoMemory
    }
}

impl<T: Drop> From<AllocFailed<T>> for Stop {
    ghost use Rattle.std.specs.Prelude.{◌≡◌};
    ghost use Rattle.events.specs.declared.output.Stop.TheVariants.{NoMemory as no_memory};

    ghost from_gives = { λ _ stop. stop ≡ no_memory };

    fn from(_failed: AllocFailed<T>) -> Stop {
        Stop::NoMemory
    }
}

impl From<NoMemory> for Stop {
    ghost use Rattle.std.specs.Prelude.{◌≡◌};
    ghost use Rattle.events.specs.declared.output.Stop.TheVariants.{NoMemory as no_memory};

    ghost from_gives = { λ _ stop. stop ≡ no_memory };

    fn from(_failed: NoMemory) -> Stop {
        Stop::NoMemory
    }
}

/// Appends an output.
pub fn emit(outputs: &mut Outputs, output: Output) -> Result<(), Stop>
    ensures given { OnOk result (outputs.new.items ≡ outputs.old.items ++ output ∷ []) }
    ensures memory { IfErr result (λ stop. stop ≡ Stop.NoMemory) }
{
    match outputs.push(output) {
        Ok(()) => Ok(()),
        Err(_) => Err(Stop::NoMemory),
    }
}
