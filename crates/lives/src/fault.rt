//! Why a life ends.

ghost use Rattle.std.specs.Prelude.{◌≡◌};
ghost use Rattle.lives.specs.declared.fault.LifeFault.TheVariants as faults;

use event_log::LogFault;
use std::alloc::{AllocError, AllocFailed};
use thiserror::Error;

/// Why a machine takes no more.
#[derive(Clone, Copy, Debug, PartialEq, Eq, Error)]
pub enum StepFault {
    /// There was no memory for a step, or for its outputs.
    #[error("out of memory")]
    NoMemory,
    /// The machine knows no such input.
    #[error("no input of this machine")]
    NoInput,
}

impl From<AllocError> for StepFault {
    fn from(_failed: AllocError) -> StepFault {
        StepFault::NoMemory
    }
}

impl<T: Drop> From<AllocFailed<T>> for StepFault {
    fn from(_failed: AllocFailed<T>) -> StepFault {
        StepFault::NoMemory
    }
}

/// Why a life ends, or doesn't begin.
#[derive(Debug, Drop, Error)]
pub enum LifeFault {
    /// There was no memory for an event, or for outputs.
    #[error("out of memory")]
    NoMemory,
    /// The log isn't read or doesn't go on.
    #[error("{0}")]
    Log(LogFault),
    /// The machine takes no more.
    #[error("{0}")]
    Step(StepFault),
    /// An input has 2^32 bytes or more.
    #[error("an input of {len} bytes is too long")]
    TooLong {
        /// Bytes of the input.
        len: usize,
    },
    /// The log has something else than an event.
    #[error("event {number} of the log says no input")]
    NoEvent {
        /// The number of the event, counted from 0.
        number: u64,
    },
    /// The machine gives other outputs than the log says.
    #[error("the machine gives other outputs for event {number} than the log says")]
    Differs {
        /// The number of the event, counted from 0.
        number: u64,
    },
    /// A call failed before, and nothing more may be asked.
    #[error("the life is over: a call failed before")]
    Over,
}

impl From<AllocError> for LifeFault {
    ghost from_gives = { λ _ fault. fault ≡ faults.NoMemory };

    fn from(_failed: AllocError) -> LifeFault {
        LifeFault::NoMemory
    }
}

impl From<LogFault> for LifeFault {
    ghost from_gives = { λ log fault. fault ≡ faults.Log log };

    fn from(fault: LogFault) -> LifeFault {
        LifeFault::Log(fault)
    }
}

impl From<StepFault> for LifeFault {
    ghost from_gives = { λ step fault. fault ≡ faults.Step step };

    fn from(fault: StepFault) -> LifeFault {
        LifeFault::Step(fault)
    }
}
