//! Disks that fail at each call.

ghost use Rattle.std.specs.Prelude.{IsTrue};

use crate::adder::Adder;
use crate::disks::{OWNER, ROOM};
use lives::Lasting;
use sqlite_disk::{Crash, Disk, Fuse, Memory};
use std::alloc::Global;

// What comes of a life on a disk: the sums that went out, and the disk.
#[derive(Drop)]
struct Course {
    went_out: Vec<u8>,
    is_made: bool,
    disk: Fuse<Memory>,
}

// Takes an input, syncs, gives out what is due, and rests. Gives whether all of that succeeded.
fn takes<D: Disk>(
    alloc: Global,
    byte: u8,
    life: &mut Lasting<Adder, D>,
    went_out: &mut Vec<u8>,
) -> bool
    requires { IsTrue (D.Disk.is_usable life.old.disk) }
    ensures { IsTrue result → IsTrue (D.Disk.is_usable life.new.disk) }
{
    if life.take(alloc, &[byte]).is_err() {
        return false;
    }
    let Ok(given) = life.sync(alloc) else {
        return false;
    };
    if went_out.extend_from_slice(given.as_slice()).is_err() {
        return false;
    }
    match life.rest(alloc) {
        Ok(()) => true,
        Err(_) => false,
    }
}

// A life that takes one input after another, with a sync behind each, until the disk fails after so many calls.
fn live(alloc: Global, calls: u64) -> Course {
    let disk = Fuse::new(Memory::new(alloc), calls);
    let mut went_out = Vec::new(alloc);
    let mut life = match Lasting::begin(alloc, OWNER, ROOM, Adder { total: 0 }, disk) {
        Ok(life) => life,
        Err((_, disk)) => return Course {
            went_out,
            is_made: false,
            disk,
        },
    };
    let _are_taken = takes(alloc, 5, &mut life, &mut went_out)
        && takes(alloc, 6, &mut life, &mut went_out)
        && takes(alloc, 7, &mut life, &mut went_out);
    Course {
        went_out,
        is_made: true,
        disk: life.into_disk(),
    }
}

// The machine of a further life, after a crash.
fn sum_after(alloc: Global, disk: Fuse<Memory>) -> Option<u8> {
    let mut disk = disk;
    disk.crash();
    match disk.sync() {
        Ok(()) => {}
        Err(_) => return None,
    }
    match Lasting::resume(alloc, OWNER, ROOM, Adder { total: 0 }, disk) {
        Ok((life, _)) => Some(life.machine().total),
        Err(_) => None,
    }
}

// Whatever call fails, the next life has all that went out.
fn keeps_what_went_out(alloc: Global, calls: u64) -> bool {
    let course = live(alloc, calls);
    if !course.is_made {
        return course.went_out.is_empty();
    }
    match (sum_after(alloc, course.disk), course.went_out.last()) {
        (Some(sum), Some(last)) => sum >= *last,
        (Some(_), None) => true,
        (None, _) => false,
    }
}

#[test]
fn what_went_out_lasts_whatever_call_fails(rt: HostRuntime) {
    let alloc = rt.alloc();
    assert!(rt; (0..20).all(|calls| keeps_what_went_out(alloc, calls)));
}

// With calls enough all sums go out: one to learn that the file is empty, two for the header, and four for each input.
#[test]
fn all_goes_out_if_no_call_fails(rt: HostRuntime) {
    let alloc = rt.alloc();
    assert!(rt; live(alloc, 15).went_out.as_slice() == [5, 11, 18].as_slice());
    assert!(rt; live(alloc, 12).went_out.as_slice() == [5, 11].as_slice());
}
