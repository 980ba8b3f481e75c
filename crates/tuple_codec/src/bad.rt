//! Why bytes can't be read.

use std::alloc::{AllocError, AllocFailed};
use terms::NoMemory;
use thiserror::Error;

/// Why bytes can't be read.
#[derive(Clone, Copy, Debug, PartialEq, Eq, Error)]
pub enum Bad {
    /// No front of the bytes spells a value within the limits.
    #[error("no front of the bytes spells a value within the limits")]
    Malformed,
    #[error("out of memory")]
    NoMemory,
}

impl From<AllocError> for Bad {
    ghost use Rattle.tuple_codec.specs.declared.bad.Bad.TheVariants.{NoMemory};
    ghost use Rattle.std.specs.Prelude.{◌≡◌};

    ghost from_gives = { λ _ e. e ≡ NoMemory };

    fn from(_failed: AllocError) -> Bad {
        Bad::NoMemory
    }
}

impl<T: Drop> From<AllocFailed<T>> for Bad {
    ghost use Rattle.tuple_codec.specs.declared.bad.Bad.TheVariants.{NoMemory};
    ghost use Rattle.std.specs.Prelude.{◌≡◌};

    ghost from_gives = { λ _ e. e ≡ NoMemory };

    fn from(_failed: AllocFailed<T>) -> Bad {
        Bad::NoMemory
    }
}

impl From<NoMemory> for Bad {
    ghost use Rattle.tuple_codec.specs.declared.bad.Bad.TheVariants.{NoMemory};
    ghost use Rattle.std.specs.Prelude.{◌≡◌};

    ghost from_gives = { λ _ e. e ≡ NoMemory };

    fn from(_failed: NoMemory) -> Bad {
        Bad::NoMemory
    }
}
