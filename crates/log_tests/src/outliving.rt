//! A machine that outlives its process.

ghost use Rattle.std.specs.Prelude.{IsTrue};
ghost use Rattle.sqlite_disk.specs.Memory.{memory_is_usable};

use crate::adder::Adder;
use crate::disks::{OWNER, ROOM};
use event_log::{Log, LogFault};
use lives::{Lasting, LifeFault, StepFault};
use sqlite_disk::{Crash, Disk, Memory};
use std::alloc::Global;

// A first life, in which the sums 5, 11 and 18 go out, in two groups. The event behind them is lost.
fn first_life(alloc: Global) -> Option<Memory> {
    let disk = Memory::new(alloc);
    let Ok(mut life) = Lasting::begin(alloc, OWNER, ROOM, Adder { total: 0 }, disk) else {
        return None;
    };
    let are_taken = life.take(alloc, &[5]).is_ok()
        && life.take(alloc, &[6]).is_ok()
        && life.take(alloc, &[]).is_ok();
    let first = life.sync(alloc).ok()?;
    let is_taken = life.take(alloc, &[7]).is_ok();
    let second = life.sync(alloc).ok()?;
    let is_held = life.take(alloc, &[8]).is_ok();
    if !(are_taken
        && is_taken
        && is_held
        && first.as_slice() == [5, 11].as_slice()
        && second.as_slice() == [18].as_slice())
    {
        return None;
    }
    Some(life.into_disk())
}

/// What comes of a further life of a machine, after a crash.
pub fn resume(
    alloc: Global,
    machine: Adder,
    disk: Memory,
) -> Option<Result<(Lasting<Adder, Memory>, Vec<u8>), LifeFault>> {
    let mut disk = disk;
    disk.crash();
    match disk.sync() {
        Ok(()) => {}
        Err(_) => return None,
    }
    match Lasting::resume(alloc, OWNER, ROOM, machine, disk) {
        Ok(life) => Some(Ok(life)),
        Err((fault, _)) => Some(Err(fault)),
    }
}

// Whether a further life begins with this sum, and gives these outputs again.
fn goes_on(alloc: Global, disk: Memory, total: u8, outputs: &[u8]) -> bool {
    match resume(alloc, Adder { total: 0 }, disk) {
        Some(Ok((life, again))) => life.machine().total == total && again.as_slice() == outputs,
        _ => false,
    }
}

fn outlives(alloc: Global) -> bool {
    match first_life(alloc) {
        Some(disk) => goes_on(alloc, disk, 18, &[18]),
        None => false,
    }
}

#[test]
fn what_was_synced_is_there_after_a_crash(rt: HostRuntime) {
    assert!(rt; outlives(rt.alloc()));
}

// Whether a machine that gives something else is refused at the first event.
fn is_compared(alloc: Global, disk: Memory) -> bool {
    match resume(alloc, Adder { total: 1 }, disk) {
        Some(Err(LifeFault::Differs { number })) => number == 0,
        _ => false,
    }
}

fn compares(alloc: Global) -> bool {
    match first_life(alloc) {
        Some(disk) => is_compared(alloc, disk),
        None => false,
    }
}

#[test]
fn a_replay_is_compared(rt: HostRuntime) {
    assert!(rt; compares(rt.alloc()));
}

// Writes a log whose second event is this.
fn log_with(alloc: Global, event: &[u8], disk: &mut Memory) -> Result<(), LogFault>
    requires { IsTrue (memory_is_usable disk.old) }
{
    let mut log = Log::create(alloc, OWNER, ROOM, disk)?;
    log.put(&[0, 0, 0, 1, 5, 5])?;
    log.sync(alloc, disk)?;
    log.put(event)?;
    log.sync(alloc, disk)
}

// The number of the event at which a log with this second event is refused: as no event, as one that gives something
// else, or as no input.
fn refusal(alloc: Global, event: &[u8]) -> Option<(u8, u64)> {
    let mut disk = Memory::new(alloc);
    if log_with(alloc, event, &mut disk).is_err() {
        return None;
    }
    match resume(alloc, Adder { total: 0 }, disk) {
        Some(Err(LifeFault::NoEvent { number })) => Some((1, number)),
        Some(Err(LifeFault::Differs { number })) => Some((2, number)),
        Some(Err(LifeFault::Step(StepFault::NoInput))) => Some((3, 0)),
        _ => None,
    }
}

#[test]
fn events_are_judged(rt: HostRuntime) {
    let alloc = rt.alloc();
    assert!(rt; refusal(alloc, &[0, 0, 0, 2, 6]) == Some((1, 1)));
    assert!(rt; refusal(alloc, &[0, 0, 0, 1, 6, 12]) == Some((2, 1)));
    assert!(rt; refusal(alloc, &[0, 0, 0, 1, 6, 11, 0]) == Some((2, 1)));
    assert!(rt; refusal(alloc, &[0, 0, 0, 0]) == Some((2, 1)));
    assert!(rt; refusal(alloc, &[0, 0, 0, 1, 255]) == Some((3, 0)));
    assert!(rt; refusal(alloc, &[0, 0, 0, 1, 6, 11]).is_none());
}

// A machine that stopped gives nothing out, not even what was held.
fn ends_for_good(alloc: Global) -> bool {
    let disk = Memory::new(alloc);
    let Ok(mut life) = Lasting::begin(alloc, OWNER, ROOM, Adder { total: 0 }, disk) else {
        return false;
    };
    life.take(alloc, &[5]).is_ok()
        && life.take(alloc, &[255]).is_err()
        && life.take(alloc, &[5]).is_err()
        && life.sync(alloc).is_err()
        && life.into_disk().bytes().len() == 32
}

#[test]
fn a_life_that_failed_is_over(rt: HostRuntime) {
    assert!(rt; ends_for_good(rt.alloc()));
}
