//! Why a read is not answered.

use space::PeekFault;
use thiserror::Error;

/// Why a read is not answered.
#[derive(Clone, Copy, Debug, PartialEq, Eq, Error)]
pub enum ReadFault {
    /// The operation may change a space.
    #[error("not a read-only operation")]
    NotReadOnly,
    /// There was no memory for the operation, or for the reply.
    #[error("out of memory")]
    NoMemory,
}

impl From<PeekFault> for ReadFault {
    ghost use Rattle.std.specs.Prelude.{◌≡◌};
    ghost use Rattle.read_only.specs.Faults.{fault_of_peeking};

    ghost from_gives = { λ fault e. e ≡ fault_of_peeking fault };

    fn from(fault: PeekFault) -> ReadFault {
        match fault {
            PeekFault::NotReadOnly => ReadFault::NotReadOnly,
            PeekFault::NoMemory => ReadFault::NoMemory,
        }
    }
}
