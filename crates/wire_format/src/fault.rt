//! Why bytes are no frame.

use std::alloc::{AllocError, AllocFailed};
use terms::NoMemory;
use thiserror::Error;

/// Why bytes are no frame.
#[derive(Clone, Copy, Debug, PartialEq, Eq, Error)]
pub enum NoFrame {
    /// The bytes, or a view change that they carry, are more than a frame may have.
    #[error("the frame is too long")]
    TooLarge,
    /// The bytes, whole, are not the spelling of a frame.
    #[error("the bytes are no frame")]
    Malformed,
}

/// Why bytes give no frame, or a frame no bytes.
#[derive(Clone, Copy, Debug, PartialEq, Eq, Error)]
pub enum WireFault {
    /// The frame, or a view change that it carries, is longer than it may be.
    #[error("the frame is too long")]
    TooLarge,
    /// The bytes, whole, are not the spelling of a frame.
    #[error("the bytes are no frame")]
    Malformed,
    /// There was no memory for the frame or its bytes.
    #[error("out of memory")]
    NoMemory,
}

impl From<AllocError> for WireFault {
    ghost use Rattle.wire_format.specs.declared.fault.WireFault.TheVariants.{NoMemory};
    ghost use Rattle.std.specs.Prelude.{◌≡◌};

    ghost from_gives = { λ _ e. e ≡ NoMemory };

    fn from(_failed: AllocError) -> WireFault {
        WireFault::NoMemory
    }
}

impl<T: Drop> From<AllocFailed<T>> for WireFault {
    ghost use Rattle.wire_format.specs.declared.fault.WireFault.TheVariants.{NoMemory};
    ghost use Rattle.std.specs.Prelude.{◌≡◌};

    ghost from_gives = { λ _ e. e ≡ NoMemory };

    fn from(_failed: AllocFailed<T>) -> WireFault {
        WireFault::NoMemory
    }
}

impl From<NoMemory> for WireFault {
    ghost use Rattle.wire_format.specs.declared.fault.WireFault.TheVariants.{NoMemory};
    ghost use Rattle.std.specs.Prelude.{◌≡◌};

    ghost from_gives = { λ _ e. e ≡ NoMemory };

    fn from(_failed: NoMemory) -> WireFault {
        WireFault::NoMemory
    }
}

impl From<NoFrame> for WireFault {
    ghost use Rattle.wire_format.specs.Faults.{fault_of};
    ghost use Rattle.std.specs.Prelude.{◌≡◌};

    ghost from_gives = { λ fault e. e ≡ fault_of fault };

    fn from(fault: NoFrame) -> WireFault {
        match fault {
            NoFrame::TooLarge => WireFault::TooLarge,
            NoFrame::Malformed => WireFault::Malformed,
        }
    }
}
