//! Why a transfer doesn't take a part of a state.

use terms::NoMemory;
use thiserror::Error;

/// Why a transfer doesn't take a part of a state. If several reasons hold, it tells the first.
#[derive(Clone, Copy, Debug, PartialEq, Eq, Error)]
pub enum PartFault {
    /// The part is of another state or place than was asked for last.
    #[error("the part was not asked for")]
    NotAsked,
    /// The part doesn't have the digest that is wanted there.
    #[error("the part has another digest")]
    WrongDigest,
    /// There was no memory for the part.
    #[error("out of memory")]
    NoMemory,
}

impl From<NoMemory> for PartFault {
    ghost use Rattle.std.specs.Prelude.{◌≡◌};
    ghost use Rattle.state_transfer.specs.declared.part_fault.PartFault.TheVariants.{NoMemory as no_memory};

    ghost from_gives = { λ _ e. e ≡ no_memory };

    fn from(_failed: NoMemory) -> PartFault {
        PartFault::NoMemory
    }
}
