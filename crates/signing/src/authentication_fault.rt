//! Why a frame isn't authentic to a party.

use authenticator::OpenFault;
use terms::NoMemory;
use thiserror::Error;
use wire::NoFrame;

/// Why a frame isn't authentic to a party.
#[derive(Clone, Copy, Debug, PartialEq, Eq, Error)]
pub enum AuthenticationFault {
    /// The frame, or a view change that it carries, is longer than it may be.
    #[error("the frame is too long")]
    TooLarge,
    /// The bytes, whole, are no frame.
    #[error("the bytes are no frame")]
    Malformed,
    /// The sender is no party, not of the sort that sends such messages, or this party itself.
    #[error("the sender is unknown")]
    UnknownSender,
    /// The authenticator has no entry for the receiver, or a wrong one.
    #[error("the MAC is wrong")]
    BadMac,
    /// The signature is not the sender's.
    #[error("the signature is wrong")]
    BadSignature,
    /// There was no memory for the frame.
    #[error("out of memory")]
    NoMemory,
}

impl From<NoFrame> for AuthenticationFault {
    ghost use Rattle.std.specs.Prelude.{◌≡◌};
    ghost use Rattle.signing.specs.Faults.{frame_fault};

    ghost from_gives = { λ fault e. e ≡ frame_fault fault };

    fn from(fault: NoFrame) -> AuthenticationFault {
        match fault {
            NoFrame::TooLarge => AuthenticationFault::TooLarge,
            NoFrame::Malformed => AuthenticationFault::Malformed,
        }
    }
}

impl From<OpenFault> for AuthenticationFault {
    ghost use Rattle.std.specs.Prelude.{◌≡◌};
    ghost use Rattle.signing.specs.Faults.{authentication_fault};

    ghost from_gives = { λ fault e. e ≡ authentication_fault fault };

    fn from(fault: OpenFault) -> AuthenticationFault {
        match fault {
            OpenFault::TooLarge => AuthenticationFault::TooLarge,
            OpenFault::Malformed => AuthenticationFault::Malformed,
            OpenFault::UnknownSender => AuthenticationFault::UnknownSender,
            OpenFault::BadMac => AuthenticationFault::BadMac,
            OpenFault::NoMemory => AuthenticationFault::NoMemory,
        }
    }
}

impl From<NoMemory> for AuthenticationFault {
    ghost use Rattle.std.specs.Prelude.{◌≡◌};
    ghost use Rattle.signing.specs.declared.authentication_fault.AuthenticationFault.TheVariants.{NoMemory as no_memory};

    ghost from_gives = { λ _ e. e ≡ no_memory };

    fn from(_failed: NoMemory) -> AuthenticationFault {
        AuthenticationFault::NoMemory
    }
}
