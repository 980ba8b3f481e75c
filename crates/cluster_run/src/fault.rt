//! Why a run has no answers.

use space_node::CallFault;
use std::alloc::{AllocError, AllocFailed};
use terms::NoMemory;
use thiserror::Error;

/// Why a run has no answers.
#[derive(Clone, Copy, Debug, PartialEq, Eq, Error)]
pub enum RunFault {
    /// The drills are not those of the configuration's faulty replicas, or a client is faulty.
    #[error("the configuration names a faulty party")]
    BadConfig,
    /// There are more hands than clients.
    #[error("no such client")]
    NoClient,
    /// The journal takes fewer entries than the operations can't do without.
    #[error("the journal is too small for so many operations: each takes at least {least} entries")]
    NoRoom { least: u32 },
    /// A call was not answered.
    #[error("a call was not answered: {0}")]
    Call(CallFault),
    /// More replicas have stopped than may fail, because memory ran out or the journal was full.
    #[error("too many replicas have stopped: memory ran out, or the journal is full")]
    TooManyStopped,
    /// The journal has another history of a party than the party itself.
    #[error("the journal differs from the history of a party")]
    NotInJournal,
    /// No thread could be started.
    #[error("no thread could be started")]
    NoThread,
    /// A client gave back fewer answers than it had operations. No contract excludes it.
    #[error("an operation has no answer")]
    NoAnswer,
    #[error("out of memory")]
    NoMemory,
}

/// Why a run that began has no answers. Its arguments are no reason any more.
#[derive(Clone, Copy, Debug, PartialEq, Eq)]
pub(crate) enum LateFault {
    NoClient,
    Call(CallFault),
    TooManyStopped,
    NotInJournal,
    NoThread,
    NoAnswer,
    NoMemory,
}

impl From<LateFault> for RunFault {
    ghost use Rattle.cluster_run.specs.Faults.{IsLate};

    ghost from_gives = { λ _ fault. IsLate fault };

    fn from(fault: LateFault) -> RunFault {
        match fault {
            LateFault::NoClient => RunFault::NoClient,
            LateFault::Call(fault) => RunFault::Call(fault),
            LateFault::TooManyStopped => RunFault::TooManyStopped,
            LateFault::NotInJournal => RunFault::NotInJournal,
            LateFault::NoThread => RunFault::NoThread,
            LateFault::NoAnswer => RunFault::NoAnswer,
            LateFault::NoMemory => RunFault::NoMemory,
        }
    }
}

impl From<CallFault> for LateFault {
    fn from(fault: CallFault) -> LateFault {
        LateFault::Call(fault)
    }
}

impl From<NoMemory> for LateFault {
    fn from(_failed: NoMemory) -> LateFault {
        LateFault::NoMemory
    }
}

impl From<AllocError> for LateFault {
    fn from(_failed: AllocError) -> LateFault {
        LateFault::NoMemory
    }
}

impl<T: Drop> From<AllocFailed<T>> for LateFault {
    fn from(_failed: AllocFailed<T>) -> LateFault {
        LateFault::NoMemory
    }
}
