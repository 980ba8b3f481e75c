//! Logs in memory, and what is read of them.

ghost use Rattle.std.specs.Prelude.{IsTrue};
ghost use Rattle.sqlite_disk.specs.Disk.{Only};

use event_log::{LogFault, Owner, Reading};
use sqlite_disk::{Disk, Memory};
use std::alloc::Global;

pub const OWNER: Owner = Owner {
    mark: 0x0102_0304_0506_0708,
    key: 0x1112_1314_1516_1718,
};

/// Most bytes of a log.
pub const ROOM: usize = 1_000;

/// Where the header and the three groups end.
pub static ENDS: [usize; 4] = [32, 72, 104, 132];

/// A log of this owner: of the events `a` and `bcd`, of an empty event, and an empty group. Its bytes were made by
/// Python, by docs/formats.md, with a SipHash-1-3 of their own.
pub static LOG: [u8; 132] = [
    0x62, 0x74, 0x73, 0x6c, 0x6f, 0x67, 0x00, 0x01, 0x01, 0x02, 0x03, 0x04, 0x05, 0x06, 0x07, 0x08,
    0x11, 0x12, 0x13, 0x14, 0x15, 0x16, 0x17, 0x18, 0xf0, 0xcf, 0xc8, 0x78, 0x82, 0x8a, 0xc7, 0xa0,
    0x01, 0x02, 0x03, 0x04, 0x05, 0x06, 0x07, 0x08, 0x00, 0x00, 0x00, 0x00, 0x00, 0x00, 0x00, 0x00,
    0x00, 0x00, 0x00, 0x0c, 0x00, 0x00, 0x00, 0x01, 0x61, 0x00, 0x00, 0x00, 0x03, 0x62, 0x63, 0x64,
    0x7c, 0x5e, 0xdd, 0x3c, 0x5d, 0x6a, 0x0c, 0x0d, 0x01, 0x02, 0x03, 0x04, 0x05, 0x06, 0x07, 0x08,
    0x00, 0x00, 0x00, 0x00, 0x00, 0x00, 0x00, 0x02, 0x00, 0x00, 0x00, 0x04, 0x00, 0x00, 0x00, 0x00,
    0x6a, 0x27, 0x3d, 0x53, 0x98, 0x72, 0x6d, 0x98, 0x01, 0x02, 0x03, 0x04, 0x05, 0x06, 0x07, 0x08,
    0x00, 0x00, 0x00, 0x00, 0x00, 0x00, 0x00, 0x03, 0x00, 0x00, 0x00, 0x00, 0x85, 0xbf, 0x34, 0xbb,
    0x8c, 0x12, 0xc0, 0x31,
];

/// Reads a log, and gives the texts of its groups, one after another.
pub fn read_log<D: Disk>(alloc: Global, owner: Owner, disk: &mut D) -> Result<Vec<u8>, LogFault>
    requires usable { IsTrue (D.Disk.is_usable disk.old) }
    requires restarted { Only (D.Disk.seen disk.old) (D.Disk.may_leave disk.old) }
{
    let mut reading = Reading::open(alloc, owner, disk)?;
    let mut texts = Vec::new(alloc);
    while reading.next_group(disk)? {
        texts.extend_from_slice(reading.text())?;
    }
    reading.end(alloc, ROOM, disk)?;
    Ok(texts)
}

/// What comes of reading the log of a file with these bytes, and the file then. `None` if the memory has no room.
pub fn read_bytes(
    alloc: Global,
    owner: Owner,
    bytes: &[u8],
) -> Option<(Result<Vec<u8>, LogFault>, Memory)> {
    let mut disk = Memory::new(alloc);
    if disk.write_at(0, bytes).is_err() || disk.sync().is_err() {
        return None;
    }
    let read = read_log(alloc, owner, &mut disk);
    Some((read, disk))
}

/// Whether a file with these bytes is read as these texts, and is so long then.
pub fn reads(alloc: Global, bytes: &[u8], texts: &[u8], len: usize) -> bool {
    let Some((read, disk)) = read_bytes(alloc, OWNER, bytes) else {
        return false;
    };
    match read {
        Ok(read) => read.as_slice() == texts && disk.bytes() == &bytes[..len.min(bytes.len())],
        Err(_) => false,
    }
}

/// Whether a file with these bytes is refused as damaged at these places, and left as it is.
pub fn is_damaged(alloc: Global, bytes: &[u8], at: (usize, u64, usize)) -> bool {
    let Some((read, disk)) = read_bytes(alloc, OWNER, bytes) else {
        return false;
    };
    match read {
        Err(
            LogFault::Damaged {
                place,
                number,
                sound,
            },
        ) => (place, number, sound) == at && disk.bytes() == bytes,
        _ => false,
    }
}

/// These bytes with one of them changed.
pub fn changed(alloc: Global, bytes: &[u8], place: usize) -> Vec<u8> {
    let mut copy = Vec::new(alloc);
    if copy.extend_from_slice(bytes).is_ok() && place < copy.len() {
        copy[place] ^= 0xff;
    }
    copy
}
