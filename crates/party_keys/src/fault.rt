//! Why a text is the file of no party.

use crate::key::Key;
use std::alloc::{AllocError, AllocFailed};
use std::fmt::{self, InlineText};
use thiserror::Error;

/// Why a text is the file of no party. What is shown of it stands on one line, and has no control character. No key of
/// the file is shown.
#[derive(Clone, Copy, Debug, Error)]
pub enum FileFault {
    /// The text has more than [`MAX_FILE`](crate::MAX_FILE) bytes.
    #[error("the file has more than 65536 bytes")]
    TooLong,
    /// The text is no TOML, which is seen at this line and column, both from 1. A column counts characters.
    #[error("line {line}, column {column}: {}", .error.message())]
    NoToml {
        line: usize,
        column: usize,
        error: toml::de::Error,
    },
    #[error("`{0}` is no key of a party's file")]
    UnknownKey(ShownKey),
    #[error("`{0}` is missing")]
    Missing(Key),
    #[error("`{0}` is no whole number")]
    NoNumber(Key),
    /// The number under this key is not one of 1 to the most.
    #[error("`{key}` is {number}, and has to be from 1 to {most}")]
    OutOfRange {
        key: Key,
        number: i64,
        most: u32,
    },
    /// No replica and no client has this number.
    #[error("`party` is {number}, and has to be from 0 to {last_replica} or from 256 to {last_client}")]
    NoParty {
        number: i64,
        last_replica: u16,
        last_client: u16,
    },
    #[error("`{0}` is no array")]
    NoArray(Key),
    #[error("`{key}` has {keys} keys, and has to have {wanted}")]
    Length {
        key: Key,
        keys: usize,
        wanted: usize,
    },
    /// The value under this key is no key, nor is one at this place of the array there.
    #[error("`{key}`{place} is no string")]
    NoString {
        key: Key,
        place: Place,
    },
    #[error("`{key}`{place} has {digits} digits, and has to have 64")]
    Digits {
        key: Key,
        place: Place,
        digits: usize,
    },
    /// The byte of this index, from 0, begins no hexadecimal digit.
    #[error("`{key}`{place} has no hexadecimal digit at place {index}, counted from 0")]
    NoDigit {
        key: Key,
        place: Place,
        index: usize,
    },
    #[error("`signing_seed` is that of a replica, and `party` is a client")]
    SeedOfClient,
    #[error("`public` has another key of replica {replica} than `signing_seed` gives")]
    OtherSeed {
        replica: u8,
    },
    #[error("out of memory")]
    NoMemory,
}

/// Where a key stands: alone, or in an array at this place, counted from 0.
#[derive(Clone, Copy, Debug)]
pub enum Place {
    Alone,
    At(usize),
}

impl fmt::Display for Place {
    fn fmt<W: fmt::Write>(&self, f: &mut fmt::Formatter<W>) -> fmt::Result {
        match self {
            Place::Alone => Ok(()),
            Place::At(index) => write!(f, "[{index}]"),
        }
    }
}

/// An unknown key as it is shown: characters that are not printed are escaped, and after 60 bytes it is cut.
#[derive(Clone, Copy)]
pub struct ShownKey(InlineText<60>);

impl ShownKey {
    pub(crate) fn of(key: &str) -> ShownKey {
        ShownKey(InlineText::of(key.escape_debug()))
    }
}

impl fmt::Display for ShownKey {
    fn fmt<W: fmt::Write>(&self, f: &mut fmt::Formatter<W>) -> fmt::Result {
        f.write_str(self.0.as_str())
    }
}

impl fmt::Debug for ShownKey {
    fn fmt<W: fmt::Write>(&self, f: &mut fmt::Formatter<W>) -> fmt::Result {
        f.write_str(self.0.as_str())
    }
}

impl From<AllocError> for FileFault {
    ghost use Rattle.std.specs.Prelude.{◌≡◌};
    ghost use Rattle.party_keys.specs.declared.fault.FileFault.TheVariants.{NoMemory as no_memory};

    ghost from_gives = { λ _ fault. fault ≡ no_memory };

    fn from(_failed: AllocError) -> FileFault {
        FileFault::NoMemory
    }
}

impl<T: Drop> From<AllocFailed<T>> for FileFault {
    ghost use Rattle.std.specs.Prelude.{◌≡◌};
    ghost use Rattle.party_keys.specs.declared.fault.FileFault.TheVariants.{NoMemory as no_memory};

    ghost from_gives = { λ _ fault. fault ≡ no_memory };

    fn from(_failed: AllocFailed<T>) -> FileFault {
        FileFault::NoMemory
    }
}
