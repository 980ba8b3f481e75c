//! Why a client's process ends before its lines do.

use events::Stop;
use one_space::ReadFault;
use records::PutFault;
use std::io;
use terms::NoMemory;
use thiserror::Error;

/// Why a client's process ends before its lines do.
#[derive(Debug, Drop, Error)]
pub enum ConverseFault {
    /// There was no memory for a line, for a step, or for what it gave.
    #[error("out of memory")]
    NoMemory,
    /// The client can make no further call.
    #[error("the client can make no further call")]
    Stopped,
    /// The records ended while a call was open.
    #[error("the records ended before the answer")]
    Unanswered,
    /// No record has room for a frame. No client makes such a frame.
    #[error("no record has room for a frame")]
    TooLarge,
    #[error("not read: {0}")]
    Read(io::Error),
    #[error("not written: {0}")]
    Write(io::Error),
}

impl From<NoMemory> for ConverseFault {
    ghost use Rattle.client_process.specs.Faults.{StopsBetween};

    ghost from_gives = { λ _ fault. StopsBetween fault };

    fn from(_failed: NoMemory) -> ConverseFault {
        ConverseFault::NoMemory
    }
}

impl From<Stop> for ConverseFault {
    ghost use Rattle.client_process.specs.Faults.{StopsBetween};

    ghost from_gives = { λ _ fault. StopsBetween fault };

    fn from(stop: Stop) -> ConverseFault {
        match stop {
            Stop::NoMemory => ConverseFault::NoMemory,
            Stop::Stopped => ConverseFault::Stopped,
        }
    }
}

impl From<PutFault> for ConverseFault {
    ghost use Rattle.client_process.specs.Faults.{StopsBetween};

    ghost from_gives = { λ _ fault. StopsBetween fault };

    fn from(fault: PutFault) -> ConverseFault {
        match fault {
            PutFault::TooLarge => ConverseFault::TooLarge,
            PutFault::NoMemory => ConverseFault::NoMemory,
        }
    }
}

impl From<ReadFault> for ConverseFault {
    ghost use Rattle.client_process.specs.Faults.{StopsBetween};

    ghost from_gives = { λ _ fault. StopsBetween fault };

    fn from(fault: ReadFault) -> ConverseFault {
        match fault {
            ReadFault::NoMemory => ConverseFault::NoMemory,
            ReadFault::Read(error) => ConverseFault::Read(error),
        }
    }
}
