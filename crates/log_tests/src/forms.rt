//! The bytes of a log.

ghost use Rattle.std.specs.Prelude.{IsTrue};
ghost use Rattle.sqlite_disk.specs.Memory.{memory_is_usable};

use crate::disks::{LOG, OWNER, ROOM, reads};
use event_log::{Log, LogFault};
use sqlite_disk::Memory;
use std::alloc::Global;

// Writes the log of `disks`, group by group.
fn write_log(alloc: Global, disk: &mut Memory) -> Result<(), LogFault>
    requires { IsTrue (memory_is_usable disk.old) }
{
    let mut log = Log::create(alloc, OWNER, ROOM, disk)?;
    log.put(b"a")?;
    log.put(b"bcd")?;
    log.sync(alloc, disk)?;
    log.sync(alloc, disk)?;
    log.put(b"")?;
    log.sync(alloc, disk)?;
    log.rest(alloc, disk)
}

fn is_written(alloc: Global) -> bool {
    let mut disk = Memory::new(alloc);
    write_log(alloc, &mut disk).is_ok() && disk.bytes() == LOG.as_slice()
}

#[test]
fn a_log_has_its_bytes(rt: HostRuntime) {
    assert!(rt; is_written(rt.alloc()));
}

#[test]
fn a_log_is_read(rt: HostRuntime) {
    let texts = [0, 0, 0, 1, b'a', 0, 0, 0, 3, b'b', b'c', b'd', 0, 0, 0, 0];
    assert!(rt; reads(rt.alloc(), &LOG, &texts, 132));
}
