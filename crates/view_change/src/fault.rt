//! Why a replica refuses a new view.

use terms::NoMemory;
use thiserror::Error;

/// Why a replica refuses a new view. The first reason that applies is told, in this order.
#[derive(Clone, Copy, Debug, PartialEq, Eq, Error)]
pub enum NewViewFault {
    /// It is not from the primary of its view.
    #[error("the new view is not from its primary")]
    UnknownSender,
    /// Its view is not above the current one, or below that of a view change that was sent, or 2^48 or more.
    #[error("the new view is of another view")]
    WrongView,
    /// It carries bytes that are no view change, or a view change that its sender did not sign.
    #[error("a signature is wrong")]
    BadSignature,
    /// It carries view changes of too few replicas.
    #[error("too few view changes")]
    TooFew,
    /// A view change is for another view or out of its bounds, or a rule fails.
    #[error("the new view is not selected by the rules")]
    NotSelected,
    /// Memory ran out.
    #[error("out of memory")]
    NoMemory,
}

impl From<NoMemory> for NewViewFault {
    ghost use Rattle.std.specs.Prelude.{◌≡◌};
    ghost use Rattle.view_change.specs.declared.fault.NewViewFault.TheVariants.{NoMemory as no_memory};

    ghost from_gives = { λ _ e. e ≡ no_memory };

    fn from(_failed: NoMemory) -> NewViewFault {
        NewViewFault::NoMemory
    }
}
