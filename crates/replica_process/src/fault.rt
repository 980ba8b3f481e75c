//! Why a process ends before its input does.

ghost use Rattle.std.specs.Prelude.{◌≡◌};
ghost use Rattle.replica_process.specs.declared.fault.ServeFault.TheVariants as faults;
ghost use Rattle.replica_process.specs.Faults.{serve_fault_of};

use events::Stop;
use records::PutFault;
use std::io;
use terms::NoMemory;
use thiserror::Error;

/// Why a process ends before its input does.
#[derive(Debug, Drop, Error)]
pub enum ServeFault {
    /// There was no memory for a step, or for what it gave.
    #[error("out of memory")]
    NoMemory,
    /// No record has room for a frame. No replica makes such a frame.
    #[error("no record has room for a frame")]
    TooLarge,
    #[error("not read: {0}")]
    Read(io::Error),
    #[error("not written: {0}")]
    Write(io::Error),
}

impl ServeFault {
    ghost use Rattle.std.specs.Prelude.{◌↔◌, IsTrue};
    ghost use Rattle.replica_process.specs.Texts.{IsWriteFault};

    /// Whether writing failed.
    pub(crate) fn is_of_writing(&self) -> bool
        ensures { IsTrue result ↔ IsWriteFault self.now }
    {
        match self {
            ServeFault::NoMemory => false,
            ServeFault::TooLarge => false,
            ServeFault::Read(_) => false,
            ServeFault::Write(_) => true,
        }
    }
}

impl From<NoMemory> for ServeFault {
    ghost from_gives = { λ _ fault. fault ≡ faults.NoMemory };

    fn from(_failed: NoMemory) -> ServeFault {
        ServeFault::NoMemory
    }
}

impl From<Stop> for ServeFault {
    ghost from_gives = { λ _ fault. fault ≡ faults.NoMemory };

    fn from(_stop: Stop) -> ServeFault {
        ServeFault::NoMemory
    }
}

impl From<PutFault> for ServeFault {
    ghost from_gives = { λ put fault. fault ≡ serve_fault_of put };

    fn from(fault: PutFault) -> ServeFault {
        match fault {
            PutFault::TooLarge => ServeFault::TooLarge,
            PutFault::NoMemory => ServeFault::NoMemory,
        }
    }
}
