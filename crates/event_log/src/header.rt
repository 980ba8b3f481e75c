//! The header of a log.

ghost use Rattle.std.specs.Prelude.{◌≡◌, IfOk, OnOk};
ghost use Rattle.event_log.specs.Logs.{header_bytes};

use crate::fault::LogFault;
use crate::owner::Owner;
use sqlite_disk::digest_of;
use std::alloc::{AllocError, Global};

/// The form's name: the bytes `btslog` and 0, 1 for its first version.
pub(crate) const FORM: u64 = 0x6274_736c_6f67_0001;

/// Bytes of a header.
pub const HEADER_LEN: usize = 32;

/// The header of an owner's log.
pub(crate) fn header(alloc: Global, owner: Owner) -> Result<Vec<u8>, AllocError>
    ensures { IfOk result (λ header. header.items ≡ header_bytes owner) }
{
    let mut header = Vec::with_capacity(alloc, HEADER_LEN)?;
    header.extend_from_slice(&FORM.to_be_bytes())?;
    header.extend_from_slice(&owner.mark.to_be_bytes())?;
    header.extend_from_slice(&owner.key.to_be_bytes())?;
    let check = digest_of(0, &header);
    header.extend_from_slice(&check.to_be_bytes())?;
    Ok(header)
}

/// Refuses what is no header of this owner.
pub(crate) fn judge_header(alloc: Global, owner: Owner, bytes: &[u8]) -> Result<(), LogFault>
    ensures { OnOk result (bytes.now ≡ header_bytes owner) }
{
    if bytes == header(alloc, owner)?.as_slice() {
        return Ok(());
    }
    Err(refusal(bytes))
}

// Why these bytes are no header of the owner.
fn refusal(bytes: &[u8]) -> LogFault {
    let len = bytes.len();
    if len < HEADER_LEN {
        return LogFault::Unmade { len };
    }
    let (text, check) = bytes.split_at(24);
    if &text[..8] != FORM.to_be_bytes().as_slice() {
        return LogFault::NoLog;
    }
    if check != digest_of(0, text).to_be_bytes().as_slice() {
        return LogFault::DamagedHeader;
    }
    LogFault::Foreign
}
