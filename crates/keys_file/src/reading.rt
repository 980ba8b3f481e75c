//! The keys in the file of a party.

ghost use Rattle.std.specs.Prelude.{IfSome};
ghost use Rattle.keys_file.specs.Reading.{IsFileFault, ReadsFront, TellsKeys};

use crate::fault::KeysFault;
use party_keys::{FileFault, MAX_FILE, PartyKeys, read_file};
use std::alloc::Global;
use std::io::Read;

/// Reads the file of a party. Of one that is too long one byte more than may be is read.
///
/// # Errors
///
/// Why the text is no party's file, why it was not read, or that memory ran out.
pub fn read_keys<R: Read + Drop>(alloc: Global, file: R) -> Result<PartyKeys, KeysFault>
    ensures { IfSome (R.remaining file) (λ text. TellsKeys text result) }
{
    let text = read_text(alloc, file)?;
    match read_file(alloc, text.as_slice()) {
        Ok(keys) => Ok(keys),
        Err(fault) => Err(fault_of(fault)),
    }
}

fn read_text<R: Read + Drop>(alloc: Global, file: R) -> Result<Vec<u8>, KeysFault>
    ensures { ReadsFront (R.remaining file) result }
{
    let mut text = Vec::new(alloc);
    let mut front = file.take(MAX_FILE as u64 + 1);
    match front.read_to_end(&mut text) {
        Ok(_) => Ok(text),
        Err(error) => Err(KeysFault::of_read(error)),
    }
}

fn fault_of(fault: FileFault) -> KeysFault
    ensures { IsFileFault fault result }
{
    match fault {
        FileFault::NoMemory => KeysFault::NoMemory,
        other => KeysFault::File(other),
    }
}
