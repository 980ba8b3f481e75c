//! Records that are written.

ghost use Rattle.std.specs.Prelude.{◌≡◌, ◌↔◌, ◌++◌, ◌<◌, ◌*◌, ◌⊎◌, length, map, Err, OnOk, OnErr};
ghost use Rattle.terms.specs.Parties.{party_number};
ghost use Rattle.wire_format.specs.declared.frames.TheConstants.{MAX_FRAME};
ghost use Rattle.std.specs.Int.{w16, to_be_bytes};
ghost use Rattle.wire_format.specs.Lists.{each_spelling};
ghost use Rattle.records.specs.Records.{frame_record, timer_record};
ghost use Rattle.records.specs.Taking.{HasRoom, FillsRoom};

use crate::notice::{FRAME, TIMER};
use std::alloc::AllocError;
use terms::{NoMemory, Party};
use thiserror::Error;
use wire_format::MAX_FRAME;

/// Why no record was written.
#[derive(Clone, Copy, Debug, PartialEq, Eq, Error)]
pub enum PutFault {
    /// The frame has more bytes than a frame may have, or more than 255 receivers.
    #[error("no record has room for the frame")]
    TooLarge,
    /// There was no memory for the record.
    #[error("out of memory")]
    NoMemory,
}

impl From<AllocError> for PutFault {
    ghost use Rattle.std.specs.Prelude.{◌≡◌};
    ghost use Rattle.records.specs.declared.writing.PutFault.TheVariants.{NoMemory};

    ghost from_gives = { λ _ fault. fault ≡ NoMemory };

    fn from(_failed: AllocError) -> PutFault {
        PutFault::NoMemory
    }
}

// A record has a byte for the count of its receivers.
const MAX_RECEIVERS: usize = 255;

/// Appends the record of a frame that is to go to these parties.
///
/// # Errors
///
/// TooLarge exactly if no record has room for the frame or its receivers, and NoMemory if memory runs out. Nothing is
/// appended then.
pub fn put_frame(receivers: &[Party], frame: &[u8], out: &mut Vec<u8>) -> Result<(), PutFault>
    ensures ok { OnOk result (out.new.items
        ≡ out.old.items ++ frame_record (map party_number receivers.now) frame.now) }
    ensures err { OnErr result (out.new.items ≡ out.old.items) }
    ensures too_large { (result ≡ Err PutFault.TooLarge)
        ↔ ((MAX_FRAME < length frame.now) ⊎ (255 < length receivers.now)) }
{
    if frame.len() > MAX_FRAME || receivers.len() > MAX_RECEIVERS {
        return Err(PutFault::TooLarge);
    }
    let len = 2 + 2 * receivers.len() + frame.len();
    out.reserve(4 + len)?;
    put(&(len as u32).to_be_bytes(), out);
    put(&[FRAME, receivers.len() as u8], out);
    put_parties(receivers, out);
    put(frame, out);
    Ok(())
}

/// Appends the record of a timer that begins, in place of the last one: its number, and how many milliseconds it lasts.
///
/// # Errors
///
/// NoMemory if memory runs out. Nothing is appended then.
pub fn put_timer(number: u64, milliseconds: u32, out: &mut Vec<u8>) -> Result<(), NoMemory>
    ensures ok { OnOk result (out.new.items ≡ out.old.items ++ timer_record number milliseconds) }
    ensures err { OnErr result (out.new.items ≡ out.old.items) }
{
    out.reserve(17)?;
    put(&[0, 0, 0, 13, TIMER], out);
    put(&number.to_be_bytes(), out);
    put(&milliseconds.to_be_bytes(), out);
    Ok(())
}

fn put_parties(parties: &[Party], out: &mut Vec<u8>)
    requires { HasRoom out.old (2 * length parties.now) }
    ensures { FillsRoom (each_spelling (to_be_bytes w16) (map party_number parties.now)) out.old out.new }
{
    for party in parties {
        put(&party.number().to_be_bytes(), out);
    }
}

// Appends bytes where there is room for them.
fn put(bytes: &[u8], out: &mut Vec<u8>)
    requires { HasRoom out.old (length bytes.now) }
    ensures { FillsRoom bytes.now out.old out.new }
{
    match out.extend_from_slice(bytes) {
        Ok(()) => {}
        Err(_) => unreachable!(),
    }
}
