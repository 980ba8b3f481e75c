//! All memory of a process, except for the blocks that are given back.

use std::alloc::Global;
use std::fs;
use std::io::Read;
use std::process::Abort;
use std::rt::Files;

// A process has fewer addresses than 2 to the power of this.
const ADDRESSES: u32 = 48;

// Blocks of less than 2 to the power of this are kept by `malloc` when they are freed, each for one of its length, in
// steps of 16 bytes.
const KEPT: u32 = 11;

const KEPT_LENGTHS: usize = 128;

// The test uses a page or two of each block. If so many blocks are not enough, the system gives only small ones, and
// the pages would be memory that other processes lack.
const BLOCKS: usize = 1 << 15;

// More of the stack than a call takes, in bytes.
const STACK: usize = 1 << 18;

const PAGE: usize = 4096;

// How the system counts memory that is taken and not used.
const COUNTING: &str = "/proc/sys/vm/overcommit_memory";

// It counts all of it.
const STRICTLY: u8 = b'2';

/// How a call came out.
#[derive(Clone, Copy, Debug, PartialEq, Eq)]
pub enum Outcome {
    Done,
    /// Memory ran out, and all is as the call promises for that.
    Refused,
    Wrong,
}

/// How a call came out that was done, that was refused for want of memory, or neither.
pub fn outcome_of(is_done: bool, is_refused: bool) -> Outcome {
    if is_done {
        Outcome::Done
    } else if is_refused {
        Outcome::Refused
    } else {
        Outcome::Wrong
    }
}

/// A call that can be made again and again.
pub trait Call {
    fn call(&mut self, alloc: Global) -> Outcome;
}

/// How often a call came out so.
#[derive(Clone, Copy, Debug, Default)]
pub struct Tally {
    done: usize,
    refused: usize,
    wrong: usize,
}

impl Tally {
    /// That of a call for which not all could be made ready.
    pub fn unprepared() -> Option<Tally> {
        let mut tally = Tally::default();
        tally.add(Outcome::Wrong);
        Some(tally)
    }

    pub fn add(&mut self, outcome: Outcome) {
        let count = match outcome {
            Outcome::Done => &mut self.done,
            Outcome::Refused => &mut self.refused,
            Outcome::Wrong => &mut self.wrong,
        };
        *count = count.saturating_add(1);
    }

    /// Whether the call was right each time, wanted memory at first, and had enough in the end.
    pub fn is_right(&self) -> bool {
        self.wrong == 0 && self.refused > 0 && self.done > 0
    }
}

/// All memory of the process, of which crumbs can be given back.
#[derive(Drop)]
pub struct Taken {
    crumbs: Vec<Vec<u8>>,
    _others: Vec<Vec<u8>>,
}

impl Taken {
    /// Takes all memory, so many crumbs of this length among it. None if the system counts memory strictly, or gives
    /// no blocks that are large enough: other processes would lack the memory.
    pub fn new<R: Files>(rt: &R, alloc: Global, crumbs: usize, len: usize) -> Option<Taken> {
        if is_counted_strictly(rt) || !has_stack(len) {
            return None;
        }
        let crumbs = blocks_of(alloc, crumbs, len)?;
        let others = take_all(alloc)?;
        Some(Taken {
            crumbs,
            _others: others,
        })
    }

    /// Gives a crumb back, if there is one.
    pub fn put_back(&mut self) {
        self.crumbs.pop();
    }
}

/// Makes the call, makes it again while no memory is left, and then each time that one of so many crumbs of this length
/// is given back, except the last. None if memory can't be taken.
pub fn under_each_size<R: Files, C: Call>(
    rt: &R,
    alloc: Global,
    crumbs: usize,
    len: usize,
    call: &mut C,
) -> Option<Tally> {
    let mut tally = Tally::default();
    // The memory that the call takes once and keeps is taken before.
    if call.call(alloc) != Outcome::Done {
        return Tally::unprepared();
    }
    let mut taken = Taken::new(rt, alloc, crumbs, len)?;
    for _ in 0..crumbs {
        tally.add(call.call(alloc));
        taken.put_back();
    }
    Some(tally)
}

/// The tally is right, if there is one. The assertion stands here and not in each test, since each costs a proof.
pub fn assert_right<R: Abort>(rt: &R, tally: Option<Tally>) {
    if let Some(tally) = tally {
        assert!(rt; tally.is_right(), "{tally:?}");
    }
}

// Uses the stack, which can't grow afterwards, and keeps the used part. Always true.
fn has_stack(any: usize) -> bool {
    let mut room = [0u8; STACK];
    for page in 0..STACK / PAGE {
        room[page * PAGE] = 1;
    }
    room[any % STACK] <= 1
}

fn is_counted_strictly<R: Files>(rt: &R) -> bool {
    let Ok(mut file) = fs::open(rt, COUNTING) else {
        return true;
    };
    let mut mode = [STRICTLY];
    !matches!(file.read(mode.as_mut_slice()), Ok(1)) || mode[0] == STRICTLY
}

fn blocks_of(alloc: Global, count: usize, len: usize) -> Option<Vec<Vec<u8>>> {
    let mut blocks = Vec::with_capacity(alloc, count).ok()?;
    for _ in 0..count {
        blocks.push(Vec::with_capacity(alloc, len).ok()?).ok()?;
    }
    Some(blocks)
}

// Takes blocks, the greatest first, until there is none to be had.
fn take_all(alloc: Global) -> Option<Vec<Vec<u8>>> {
    let mut taken = Vec::with_capacity(alloc, BLOCKS).ok()?;
    for exponent in (KEPT..ADDRESSES).rev() {
        if !take_each(alloc, 1 << exponent, &mut taken) {
            return None;
        }
    }
    for length in (1..=KEPT_LENGTHS).rev() {
        if !take_each(alloc, 16 * length, &mut taken) {
            return None;
        }
    }
    Some(taken)
}

// Takes blocks of this length until there is none to be had, and answers whether they have their places.
fn take_each(alloc: Global, len: usize, taken: &mut Vec<Vec<u8>>) -> bool {
    for _ in taken.len()..BLOCKS {
        match Vec::with_capacity(alloc, len) {
            Ok(block) => {
                if taken.push(block).is_err() {
                    return false;
                }
            }
            Err(_) => return true,
        }
    }
    false
}
