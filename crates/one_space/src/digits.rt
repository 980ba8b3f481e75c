//! A tuple as text, from its bytes in digits.

ghost use Rattle.one_space.specs.Shown.{EndsShow, ReadsDigits};

use hex::FromHexError;
use std::alloc::{AllocFailed, Global};
use std::io::{self, Write};
use terms::NoMemory;
use thiserror::Error;
use tuple_codec::{Bad, decode_tuple};
use tuple_text::write_tuple;
use tuple_tree::Tuple;

/// Why digits are those of no tuple.
#[derive(Clone, Copy, Debug, PartialEq, Eq, Error)]
pub enum BadDigits {
    #[error("an odd number of digits")]
    Odd,
    /// At this place, from 0, stands no hexadecimal digit.
    #[error("no hexadecimal digit at place {place}")]
    NoDigit { place: usize },
    /// No tuple within the limits begins so.
    #[error("these bytes spell no tuple")]
    NoTuple,
    /// The tuple ends before the last byte.
    #[error("the tuple ends after {tuple} of {all} bytes")]
    Longer { tuple: usize, all: usize },
}

/// Why no tuple was shown.
#[derive(Debug, Drop, Error)]
pub enum ShowFault {
    /// The digits' bytes spell no tuple within the limits, or there is a byte more.
    #[error("{0}")]
    Malformed(BadDigits),
    #[error("out of memory")]
    NoMemory,
    #[error("not written: {0}")]
    Write(io::Error),
}

impl From<NoMemory> for ShowFault {
    ghost use Rattle.std.specs.Prelude.{◌≡◌};
    ghost use Rattle.one_space.specs.declared.digits.ShowFault.TheVariants.{NoMemory};

    ghost from_gives = { λ _ fault. fault ≡ NoMemory };

    fn from(_failed: NoMemory) -> ShowFault {
        ShowFault::NoMemory
    }
}

impl<T: Drop> From<AllocFailed<T>> for ShowFault {
    ghost use Rattle.std.specs.Prelude.{◌≡◌};
    ghost use Rattle.one_space.specs.declared.digits.ShowFault.TheVariants.{NoMemory};

    ghost from_gives = { λ _ fault. fault ≡ NoMemory };

    fn from(_failed: AllocFailed<T>) -> ShowFault {
        ShowFault::NoMemory
    }
}

impl From<FromHexError> for ShowFault {
    ghost use Rattle.one_space.specs.ShowFaults.{fault_of_hex};
    ghost use Rattle.std.specs.Prelude.{◌≡◌};

    ghost from_gives = { λ error fault. fault ≡ fault_of_hex error };

    fn from(error: FromHexError) -> ShowFault {
        match error {
            FromHexError::OutOfMemory => ShowFault::NoMemory,
            FromHexError::InvalidHexCharacter { index, .. } => {
                ShowFault::Malformed(BadDigits::NoDigit { place: index })
            }
            FromHexError::OddLength | FromHexError::InvalidStringLength => {
                ShowFault::Malformed(BadDigits::Odd)
            }
        }
    }
}

/// Writes the tuple whose encoding is exactly the bytes of these hexadecimal digits, and a line feed. The digits are
/// an even number, each in either case.
///
/// # Errors
///
/// Malformed if there is no such tuple, and NoMemory if memory runs out; then nothing is written. Write if the writer
/// fails.
pub fn show<W: Write>(alloc: Global, digits: &str, writer: &mut W) -> Result<(), ShowFault>
    ensures { EndsShow result digits.now (W.contents writer.old) (W.contents writer.new) }
{
    let tuple = read_digits(alloc, digits)?;
    let mut text = Vec::new(alloc);
    write_tuple(&tuple, &mut text)?;
    text.push(b'\n')?;
    if let Err(error) = writer.write_all(text.as_slice()) {
        return Err(ShowFault::Write(error));
    }
    if let Err(error) = writer.flush() {
        return Err(ShowFault::Write(error));
    }
    Ok(())
}

fn read_digits(alloc: Global, digits: &str) -> Result<Tuple<Global>, ShowFault>
    ensures { ReadsDigits result digits.now }
{
    let bytes = hex::decode(alloc, digits)?;
    match decode_tuple(alloc, bytes.as_slice()) {
        Ok((tuple, len)) => {
            if len == bytes.len() {
                Ok(tuple)
            } else {
                let all = bytes.len();
                Err(ShowFault::Malformed(BadDigits::Longer { tuple: len, all }))
            }
        }
        Err(Bad::Malformed) => Err(ShowFault::Malformed(BadDigits::NoTuple)),
        Err(Bad::NoMemory) => Err(ShowFault::NoMemory),
    }
}
