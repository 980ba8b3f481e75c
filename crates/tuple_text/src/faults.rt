//! Why a line is refused.

ghost use Rattle.std.specs.Prelude.{◌≡◌};

use std::alloc::{AllocError, AllocFailed};
use thiserror::Error;

/// Most bytes of a line.
pub const MAX_LINE: usize = 65536;

/// Why a line is refused: the first of these from left to right.
#[derive(Clone, Copy, Debug, PartialEq, Eq, Error)]
pub enum LineFault {
    /// `offset`, from 0, is the first byte that can't continue any valid line. So the bytes before it are the longest
    /// beginning of the line that begins some valid line.
    #[error("no line goes on with byte {offset}")]
    BadByte { offset: usize },
    /// A ninth level is opened.
    #[error("more than 8 levels")]
    TooDeep,
    /// A list has a 33rd item.
    #[error("more than 32 fields")]
    TooManyFields,
    /// The encoding of an argument has more than 1,024 bytes.
    #[error("an encoding of more than 1,024 bytes")]
    TooLong,
    #[error("out of memory")]
    NoMemory,
}

impl LineFault {
    ghost use Rattle.tuple_text.specs.Refusals.{line_refusal};

    /// The number of the refusal.
    pub fn number(self) -> u8
        ensures { result ≡ line_refusal self }
    {
        match self {
            LineFault::TooManyFields => 1,
            LineFault::TooDeep => 2,
            LineFault::TooLong => 3,
            LineFault::NoMemory => 4,
            LineFault::BadByte { .. } => 6,
        }
    }
}

impl From<AllocError> for LineFault {
    ghost use Rattle.std.specs.Prelude.{◌≡◌};
    ghost use Rattle.tuple_text.specs.declared.faults.LineFault.TheVariants.{NoMemory};

    ghost from_gives = { λ _ e. e ≡ NoMemory };

    fn from(_failed: AllocError) -> LineFault {
        LineFault::NoMemory
    }
}

impl<T: Drop> From<AllocFailed<T>> for LineFault {
    ghost use Rattle.std.specs.Prelude.{◌≡◌};
    ghost use Rattle.tuple_text.specs.declared.faults.LineFault.TheVariants.{NoMemory};

    ghost from_gives = { λ _ e. e ≡ NoMemory };

    fn from(_failed: AllocFailed<T>) -> LineFault {
        LineFault::NoMemory
    }
}
