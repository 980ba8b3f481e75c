//! Why the service ends.

use events::BadConfig;
use space_node::{CallFault, StartFault};
use std::alloc::AllocError;
use std::io;
use thiserror::Error;
use tuple_tree::{Refusal, Refused};

/// Why the service ends.
#[derive(Debug, Drop, Error)]
pub enum Fault {
    #[error("the configuration is refused")]
    Configuration,
    /// The cluster has no handle of this client any more.
    #[error("no such client")]
    NoClient,
    /// The name and the holder make no tuple of up to 1,024 bytes.
    #[error("a name is too long")]
    TooLong,
    #[error("a call was not answered: {0}")]
    Call(CallFault),
    /// The operation can't have this answer.
    #[error("another answer than was asked for")]
    Answer,
    /// The journal has another history of a party than the party itself.
    #[error("the cluster did not finish")]
    NotFinished,
    #[error("no thread could be started")]
    NoThread,
    #[error("out of memory")]
    NoMemory,
    #[error("not written: {0}")]
    Write(io::Error),
}

impl From<BadConfig> for Fault {
    fn from(_fault: BadConfig) -> Fault {
        Fault::Configuration
    }
}

impl From<StartFault> for Fault {
    fn from(fault: StartFault) -> Fault {
        match fault {
            StartFault::BadConfig => Fault::Configuration,
            StartFault::NoThread => Fault::NoThread,
            StartFault::NoMemory => Fault::NoMemory,
        }
    }
}

impl From<CallFault> for Fault {
    fn from(fault: CallFault) -> Fault {
        Fault::Call(fault)
    }
}

impl<T: Drop> From<Refused<T>> for Fault {
    fn from(refused: Refused<T>) -> Fault {
        match refused.refusal {
            Refusal::NoMemory => Fault::NoMemory,
            _ => Fault::TooLong,
        }
    }
}

impl From<AllocError> for Fault {
    fn from(_failed: AllocError) -> Fault {
        Fault::NoMemory
    }
}

impl From<io::Error> for Fault {
    fn from(error: io::Error) -> Fault {
        Fault::Write(error)
    }
}
