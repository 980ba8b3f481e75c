//! The values of a step's words.

ghost use Rattle.std.specs.Prelude.{map};
ghost use Rattle.terms.specs.Parties.{party_number};
ghost use Rattle.schedule_text.specs.Steps.{IsHex};
ghost use Rattle.schedule_text.specs.Reading.{FindsValue, JudgesWord, NumberText, PartyText, ClientText, PartiesText};

use crate::fault::{Argument, Reason, StepFault};
use crate::words::{Word, len_before};
use hex::FromHexError;
use itoa::Buffer;
use std::alloc::Global;
use std::str;
use terms::{ClientId, Party, ReplicaId};

/// The number of the last client that a frame can name.
pub(crate) const LAST_CLIENT: u16 = 65_279;

/// The number of this decimal text, without a sign or a leading zero.
pub(crate) fn number_in(text: &[u8]) -> Option<u64>
    ensures { FindsValue (λ n. n) NumberText text.now result }
{
    let Ok(word) = str::from_utf8(text) else {
        return None;
    };
    let Ok(number) = word.parse::<u64>() else {
        return None;
    };
    let mut buffer = Buffer::new();
    if buffer.format(number).as_bytes() == text {
        Some(number)
    } else {
        None
    }
}

/// The party of this text: replica 0 is `r0`, client 0 is `c0`.
pub(crate) fn party_in(text: &[u8]) -> Option<Party>
    ensures { FindsValue party_number PartyText text.now result }
{
    match text {
        [b'r', digits @ ..] => match u8::try_from(number_in(digits)?) {
            Ok(number) => Some(Party::Replica(ReplicaId(number))),
            Err(_) => None,
        },
        [b'c', digits @ ..] => Some(Party::Client(client_in(digits)?)),
        _ => None,
    }
}

/// The client of this number.
pub(crate) fn client_in(digits: &[u8]) -> Option<ClientId>
    ensures { FindsValue (λ k. k.number) ClientText digits.now result }
{
    match u16::try_from(number_in(digits)?) {
        Ok(number) => {
            if number > LAST_CLIENT {
                return None;
            }
            Some(ClientId { number })
        }
        Err(_) => None,
    }
}

/// The parties of this word, with commas between them.
pub(crate) fn parties_of(alloc: Global, word: Word<'_>) -> Result<Vec<Party>, StepFault>
    ensures { JudgesWord (λ ps. map party_number ps.items) PartiesText word.entry.text.now result }
{
    let mut parties = Vec::new(alloc);
    let mut rest = word.text;
    loop {
        let (front, behind) = rest.split_at(len_before(b',', rest));
        let Some(party) = party_in(front) else {
            return Err(StepFault::Refused {
                byte: word.byte_at(rest),
                reason: Reason::NoParty(Argument::Parties),
            });
        };
        parties.push(party)?;
        match behind {
            [] => return Ok(parties),
            [_, more @ ..] => rest = more,
        }
    }
}

/// The bytes of the hexadecimal digits of this word, two a byte, in either case.
pub(crate) fn bytes_of(alloc: Global, word: Word<'_>) -> Result<Vec<u8>, StepFault>
    ensures { JudgesWord (λ bs. bs.items) IsHex word.entry.text.now result }
{
    match hex::decode(alloc, word.text) {
        Ok(bytes) => Ok(bytes),
        Err(FromHexError::OutOfMemory) => Err(StepFault::NoMemory),
        Err(FromHexError::InvalidHexCharacter { index, .. }) => Err(StepFault::Refused {
            byte: word.byte.saturating_add(index),
            reason: Reason::NoDigit,
        }),
        Err(FromHexError::OddLength | FromHexError::InvalidStringLength) => {
            Err(StepFault::Refused {
                byte: word.byte,
                reason: Reason::OddDigits,
            })
        }
    }
}
