//! Why no picture was drawn.

ghost use Rattle.std.specs.Prelude.{◌≡◌};
ghost use Rattle.picture.specs.declared.fault.PictureFault.TheVariants.{NoMemory};

use std::alloc::{AllocError, AllocFailed};
use terms::NoMemory;
use thiserror::Error;

/// Why no picture was drawn.
#[derive(Clone, Copy, Debug, PartialEq, Eq, Error)]
pub enum PictureFault {
    /// The trace has no entry at any of the positions.
    #[error("the trace has no entry there: it has {entries}, counted from 0")]
    NoEntry { entries: u64 },
    /// There are more entries than [`MAX_ROWS`](crate::MAX_ROWS).
    #[error("{entries} entries are too many for a picture, which has room for {most}")]
    TooHigh { entries: u64, most: u64 },
    /// More parties take part than have room beside each other.
    #[error("{parties} parties are too many for a picture, which has room for {most}")]
    TooWide { parties: u64, most: u64 },
    #[error("out of memory")]
    NoMemory,
}

impl From<NoMemory> for PictureFault {
    ghost from_gives = { λ _ e. e ≡ NoMemory };

    fn from(_failed: NoMemory) -> PictureFault {
        PictureFault::NoMemory
    }
}

impl From<AllocError> for PictureFault {
    ghost from_gives = { λ _ e. e ≡ NoMemory };

    fn from(_failed: AllocError) -> PictureFault {
        PictureFault::NoMemory
    }
}

impl<T: Drop> From<AllocFailed<T>> for PictureFault {
    ghost from_gives = { λ _ e. e ≡ NoMemory };

    fn from(_failed: AllocFailed<T>) -> PictureFault {
        PictureFault::NoMemory
    }
}
