//! Files that are no log of the owner.

ghost use Rattle.std.specs.Prelude.{IsTrue};
ghost use Rattle.sqlite_disk.specs.Memory.{memory_is_usable};

use crate::disks::{LOG, OWNER, ROOM, changed, read_bytes};
use event_log::{Log, LogFault, Owner};
use sqlite_disk::{Disk, Memory};
use std::alloc::Global;

// What is wrong with a file.
#[derive(Clone, Copy, PartialEq, Eq)]
enum Refusal {
    None,
    Missing,
    Unmade(usize),
    NoLog,
    DamagedHeader,
    Foreign,
    Other,
}

// How a file with these bytes is refused. It is left as it is.
fn comes_to(alloc: Global, owner: Owner, bytes: &[u8]) -> Refusal {
    let Some((read, disk)) = read_bytes(alloc, owner, bytes) else {
        return Refusal::Other;
    };
    if disk.bytes() != bytes {
        return Refusal::Other;
    }
    match read {
        Ok(_) => Refusal::None,
        Err(LogFault::Missing) => Refusal::Missing,
        Err(LogFault::Unmade { len }) => Refusal::Unmade(len),
        Err(LogFault::NoLog) => Refusal::NoLog,
        Err(LogFault::DamagedHeader) => Refusal::DamagedHeader,
        Err(LogFault::Foreign) => Refusal::Foreign,
        Err(_) => Refusal::Other,
    }
}

// A header is judged at each of its bytes.
fn judges_header(alloc: Global) -> bool {
    (0..8).all(|place| comes_to(alloc, OWNER, &changed(alloc, &LOG, place)) == Refusal::NoLog)
        && (8..32).all(|place| comes_to(alloc, OWNER, &changed(alloc, &LOG, place))
            == Refusal::DamagedHeader)
}

fn judges_owner(alloc: Global) -> bool {
    let mark = Owner { mark: 1, ..OWNER };
    let key = Owner { key: 1, ..OWNER };
    comes_to(alloc, OWNER, &LOG) == Refusal::None
        && comes_to(alloc, mark, &LOG) == Refusal::Foreign
        && comes_to(alloc, key, &LOG) == Refusal::Foreign
}

fn judges_length(alloc: Global) -> bool {
    comes_to(alloc, OWNER, &[]) == Refusal::Missing
        && (1..32).all(|len| comes_to(alloc, OWNER, &LOG[..len]) == Refusal::Unmade(len))
}

#[test]
fn what_has_no_header_is_refused(rt: HostRuntime) {
    assert!(rt; judges_header(rt.alloc()));
    assert!(rt; judges_owner(rt.alloc()));
    assert!(rt; judges_length(rt.alloc()));
}

fn makes_over(alloc: Global, disk: &mut Memory) -> bool
    requires { IsTrue (memory_is_usable disk.old) }
{
    match Log::create(alloc, OWNER, ROOM, disk) {
        Err(LogFault::Exists) => false,
        _ => true,
    }
}

fn keeps_what_is_there(alloc: Global) -> bool {
    let mut disk = Memory::new(alloc);
    disk.write_at(0, b"x").is_ok()
        && !makes_over(alloc, &mut disk)
        && disk.bytes() == b"x".as_slice()
}

#[test]
fn no_log_is_made_over_something(rt: HostRuntime) {
    assert!(rt; keeps_what_is_there(rt.alloc()));
}

// The room for a header, for one group of one event of four bytes, and for an empty group, which is written once.
fn fills(alloc: Global, disk: &mut Memory) -> Result<bool, LogFault>
    requires { IsTrue (memory_is_usable disk.old) }
{
    let mut log = Log::create(alloc, OWNER, 32 + 28 + 8 + 28, disk)?;
    log.put(b"four")?;
    let is_full = match log.put(b"") {
        Err(LogFault::Full { room }) => room == 96,
        _ => false,
    };
    log.sync(alloc, disk)?;
    log.rest(alloc, disk)?;
    log.rest(alloc, disk)?;
    Ok(is_full && log.put(b"").is_err())
}

fn says_that_it_is_full(alloc: Global) -> bool {
    let mut disk = Memory::new(alloc);
    match fills(alloc, &mut disk) {
        Ok(is_full) => is_full && disk.bytes().len() == 96,
        Err(_) => false,
    }
}

#[test]
fn a_full_log_says_so(rt: HostRuntime) {
    assert!(rt; says_that_it_is_full(rt.alloc()));
}
