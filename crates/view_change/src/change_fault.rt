//! Why a replica refuses a view change.

use terms::NoMemory;
use thiserror::Error;

/// Why a replica refuses a view change. The first reason that applies is told, in this order.
#[derive(Clone, Copy, Debug, PartialEq, Eq, Error)]
pub enum ChangeFault {
    /// It is no view change, or its sender did not sign it.
    #[error("the signature is wrong")]
    BadSignature,
    /// Its view is not above the last in which the replica was active, or is 2^48 or more.
    #[error("the view is over")]
    WrongView,
    /// A view in its entries or a number is out of its bounds.
    #[error("the view change is out of its bounds")]
    OutOfBounds,
    /// Its view is not above that of the sender's last.
    #[error("a later view change came before")]
    Duplicate,
    /// Memory ran out.
    #[error("out of memory")]
    NoMemory,
}

impl From<NoMemory> for ChangeFault {
    ghost use Rattle.std.specs.Prelude.{◌≡◌};
    ghost use Rattle.view_change.specs.declared.change_fault.ChangeFault.TheVariants.{NoMemory as no_memory};

    ghost from_gives = { λ _ e. e ≡ no_memory };

    fn from(_failed: NoMemory) -> ChangeFault {
        ChangeFault::NoMemory
    }
}
