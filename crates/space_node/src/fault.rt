//! Refusals.

use journal::AppendFault;
use std::alloc::{AllocError, AllocFailed};
use std::thread::SpawnError;
use terms::NoMemory;
use thiserror::Error;

/// Why a cluster was not started.
#[derive(Clone, Copy, Debug, PartialEq, Eq, Error)]
pub enum StartFault {
    /// The configuration names a faulty party.
    #[error("the configuration names a faulty party")]
    BadConfig,
    /// A thread of a replica could not be started.
    #[error("no thread could be started")]
    NoThread,
    #[error("out of memory")]
    NoMemory,
}

/// Why the threads of a replica were not started.
#[derive(Clone, Copy)]
pub(crate) enum ThreadFault {
    NoThread,
    NoMemory,
}

impl<F: Drop> From<SpawnError<F>> for ThreadFault {
    fn from(_refused: SpawnError<F>) -> ThreadFault {
        ThreadFault::NoThread
    }
}

impl From<NoMemory> for ThreadFault {
    fn from(_failed: NoMemory) -> ThreadFault {
        ThreadFault::NoMemory
    }
}

impl From<AllocError> for ThreadFault {
    fn from(_failed: AllocError) -> ThreadFault {
        ThreadFault::NoMemory
    }
}

impl From<NoMemory> for StartFault {
    ghost use Rattle.std.specs.Prelude.{◌≡◌};
    ghost use Rattle.space_node.specs.declared.fault.StartFault.TheVariants.{NoMemory as no_memory};

    ghost from_gives = { λ _ fault. fault ≡ no_memory };

    fn from(_failed: NoMemory) -> StartFault {
        StartFault::NoMemory
    }
}

impl From<AllocError> for StartFault {
    ghost use Rattle.std.specs.Prelude.{◌≡◌};
    ghost use Rattle.space_node.specs.declared.fault.StartFault.TheVariants.{NoMemory as no_memory};

    ghost from_gives = { λ _ fault. fault ≡ no_memory };

    fn from(_failed: AllocError) -> StartFault {
        StartFault::NoMemory
    }
}

impl<T: Drop> From<AllocFailed<T>> for StartFault {
    ghost use Rattle.std.specs.Prelude.{◌≡◌};
    ghost use Rattle.space_node.specs.declared.fault.StartFault.TheVariants.{NoMemory as no_memory};

    ghost from_gives = { λ _ fault. fault ≡ no_memory };

    fn from(_failed: AllocFailed<T>) -> StartFault {
        StartFault::NoMemory
    }
}

/// Why a call was not answered.
#[derive(Clone, Copy, Debug, PartialEq, Eq, Error)]
pub enum CallFault {
    /// The client had stopped before the call, or had no timestamp left.
    #[error("stopped")]
    Stopped,
    /// The journal has another history of the client, the received bytes were not sent, or the cluster has ended.
    #[error("not in the journal")]
    NotInJournal,
    /// The journal has no room.
    #[error("the journal is full")]
    JournalFull,
    #[error("out of memory")]
    NoMemory,
}

impl From<NoMemory> for CallFault {
    ghost use Rattle.std.specs.Prelude.{◌≡◌};
    ghost use Rattle.space_node.specs.declared.fault.CallFault.TheVariants.{NoMemory as no_memory};

    ghost from_gives = { λ _ fault. fault ≡ no_memory };

    fn from(_failed: NoMemory) -> CallFault {
        CallFault::NoMemory
    }
}

impl From<AppendFault> for CallFault {
    ghost use Rattle.space_node.specs.Faults.{fault_of};
    ghost use Rattle.std.specs.Prelude.{◌≡◌};

    ghost from_gives = { λ fault call. call ≡ fault_of fault };

    fn from(fault: AppendFault) -> CallFault {
        match fault {
            AppendFault::NotInJournal => CallFault::NotInJournal,
            AppendFault::JournalFull => CallFault::JournalFull,
            AppendFault::NoMemory => CallFault::NoMemory,
        }
    }
}
