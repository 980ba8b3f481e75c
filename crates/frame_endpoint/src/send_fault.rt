//! Why an endpoint makes no frame.

use signing::SignFault;
use terms::NoMemory;
use thiserror::Error;

/// Why an endpoint makes no frame.
#[derive(Clone, Copy, Debug, PartialEq, Eq, Error)]
pub enum SendFault {
    /// The frame would be longer than it may be.
    #[error("the frame is too long")]
    TooLarge,
    /// Each of the 64 keys has signed once.
    #[error("all 64 keys are spent")]
    KeysSpent,
    /// Memory ran out.
    #[error("out of memory")]
    NoMemory,
}

impl From<NoMemory> for SendFault {
    ghost use Rattle.std.specs.Prelude.{◌≡◌};
    ghost use Rattle.frame_endpoint.specs.declared.send_fault.SendFault.TheVariants.{NoMemory as no_memory};

    ghost from_gives = { λ _ e. e ≡ no_memory };

    fn from(_failed: NoMemory) -> SendFault {
        SendFault::NoMemory
    }
}

impl From<SignFault> for SendFault {
    ghost use Rattle.std.specs.Prelude.{◌≡◌};
    ghost use Rattle.frame_endpoint.specs.Faults.{fault_of_signing};

    ghost from_gives = { λ fault e. e ≡ fault_of_signing fault };

    fn from(fault: SignFault) -> SendFault {
        match fault {
            SignFault::KeysSpent => SendFault::KeysSpent,
            SignFault::NoMemory => SendFault::NoMemory,
        }
    }
}
