//! Why a text gives no configuration.

use crate::key::Key;
use std::alloc::{AllocError, AllocFailed};
use std::fmt::{self, InlineText};
use thiserror::Error;

/// Why a text gives no configuration. What is shown of it stands on one line, and has no control character.
#[derive(Clone, Copy, Debug, Error)]
pub enum ConfigFault {
    /// The text has more than [`MAX_CONFIG`](crate::MAX_CONFIG) bytes.
    #[error("the configuration has more than 65536 bytes")]
    TooLong,
    /// The text is no TOML, which is seen at this line and column, both from 1. A column counts characters.
    #[error("line {line}, column {column}: {}", .error.message())]
    NoToml {
        line: usize,
        column: usize,
        error: toml::de::Error,
    },
    #[error("`{0}` is no key of a configuration")]
    UnknownKey(ShownKey),
    #[error("`{0}` is missing")]
    Missing(Key),
    #[error("`{0}` is no whole number")]
    NoNumber(Key),
    #[error("`{0}` is no array of whole numbers")]
    NoNumbers(Key),
    /// The number under this key is not one of 1 to the most.
    #[error("`{key}` is {number}, and has to be from 1 to {most}")]
    OutOfRange {
        key: Key,
        number: i64,
        most: u32,
    },
    #[error("`seed` is no string")]
    NoSeed,
    #[error("`seed` has {0} digits, and has to have 64")]
    SeedLength(usize),
    /// The byte of this place in the seed, from 0, begins no hexadecimal digit.
    #[error("`seed` has no hexadecimal digit at place {0}, counted from 0")]
    SeedDigit(usize),
    /// The list under this key has a number which no party has.
    #[error("`{key}` names {number}, and the numbers are below {parties}")]
    NoParty {
        key: Key,
        number: i64,
        parties: u16,
    },
    #[error("`{key}` names {number} twice")]
    NamedTwice {
        key: Key,
        number: u16,
    },
    /// More replicas are named as faulty than may be.
    #[error("`faulty_replicas` names {named} replicas, and `f` is {faults}")]
    TooManyFaulty {
        named: usize,
        faults: u8,
    },
    #[error("out of memory")]
    NoMemory,
}

/// An unknown key as it is shown: characters that are not printed are escaped, and after 60 bytes it is cut.
#[derive(Clone, Copy)]
pub struct ShownKey(InlineText<60>);

impl ShownKey {
    pub(crate) fn of(key: &str) -> ShownKey {
        ShownKey(InlineText::of(key.escape_debug()))
    }
}

impl fmt::Display for ShownKey {
    fn fmt<W: fmt::Write>(&self, f: &mut fmt::Formatter<W>) -> fmt::Result {
        f.write_str(self.0.as_str())
    }
}

impl fmt::Debug for ShownKey {
    fn fmt<W: fmt::Write>(&self, f: &mut fmt::Formatter<W>) -> fmt::Result {
        f.write_str(self.0.as_str())
    }
}

impl From<AllocError> for ConfigFault {
    ghost use Rattle.std.specs.Prelude.{◌≡◌};
    ghost use Rattle.config_text.specs.declared.fault.ConfigFault.TheVariants.{NoMemory};

    ghost from_gives = { λ _ fault. fault ≡ NoMemory };

    fn from(_failed: AllocError) -> ConfigFault {
        ConfigFault::NoMemory
    }
}

impl<T: Drop> From<AllocFailed<T>> for ConfigFault {
    ghost use Rattle.std.specs.Prelude.{◌≡◌};
    ghost use Rattle.config_text.specs.declared.fault.ConfigFault.TheVariants.{NoMemory};

    ghost from_gives = { λ _ fault. fault ≡ NoMemory };

    fn from(_failed: AllocFailed<T>) -> ConfigFault {
        ConfigFault::NoMemory
    }
}
