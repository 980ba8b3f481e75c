//! Reads that memory is refused to, and the memory left in the arena.

use crate::answers::holds;
use crate::reads::answering::{new_space, read, says};
use bumpalo::Bump;
use read_only::ReadFault;
use space::Space;
use std::alloc::{AllocError, Global};
use terms::NoMemory;

// More than a read takes of the arena, in bytes.
const AMPLE: usize = 8192;

// rdp ((* "k") ?int), absent.
const ABSENT: &[u8] = b"\x22\x02\x05\x02\x10\x02\x00\x01k\x11";

// rdAll 64 (*): all 2 ("k") (true)
const ALL: &[u8] = b"\x25\x40\x01\x10";

const BOTH: &[u8] = b"\x35\x02\x01\x02\x00\x01k\x01\x04\x01";

// inp ((* "k") ?int), which is refused.
const TAKE: &[u8] = b"\x23\x02\x05\x02\x10\x02\x00\x01k\x11";

// An arena that has so many bytes left and gets no more.
fn meagre(alloc: Global, left: usize) -> Result<Bump, AllocError> {
    let arena = Bump::try_with_capacity(alloc, AMPLE)?;
    arena.set_allocation_limit(Some(0));
    let filled = arena.chunk_capacity().saturating_sub(left);
    let _filling = arena.try_alloc_slice_fill_clone(filled, 0u8)?;
    Ok(arena)
}

// Whether nothing is found in the arena, or memory runs out in it; none if neither is so.
fn finds_nothing(alloc: Global, space: &Space, arena: &mut Bump) -> Option<bool> {
    let answered = read(alloc, space, ABSENT, arena);
    let found = match &answered {
        Some(Ok(_)) => Some(true),
        Some(Err(ReadFault::NoMemory)) => Some(false),
        Some(Err(ReadFault::NotReadOnly)) | None => None,
    };
    drop(answered);
    found
}

// The same in an arena that has so many bytes left.
fn finds_nothing_in(alloc: Global, space: &Space, left: usize) -> Result<Option<bool>, AllocError> {
    let mut arena = meagre(alloc, left)?;
    let found = finds_nothing(alloc, space, &mut arena);
    drop(arena);
    Ok(found)
}

// The least number of bytes of an arena in which nothing is found. With any fewer the read says that memory ran out,
// so each growth of the operation was refused once.
fn least_arena(alloc: Global, space: &Space) -> Result<Option<usize>, AllocError> {
    for left in 0..AMPLE {
        match finds_nothing_in(alloc, space, left)? {
            Some(true) => return Ok(Some(left)),
            Some(false) => {}
            None => return Ok(None),
        }
    }
    Ok(None)
}

fn needs_some(alloc: Global, space: &Space) -> Result<bool, NoMemory> {
    match least_arena(alloc, space)? {
        Some(left) => Ok(left > 0),
        None => Ok(false),
    }
}

fn needs_some_in_space(alloc: Global) -> Result<bool, NoMemory> {
    let space = new_space(alloc)?;
    let is_right = needs_some(alloc, &space);
    drop(space);
    is_right
}

#[test]
fn growths_in_the_arena(rt: HostRuntime) {
    holds(&rt, needs_some_in_space(rt.alloc()));
}

fn is_refused(alloc: Global, space: &Space, arena: &mut Bump) -> bool {
    let taken = read(alloc, space, TAKE, arena);
    let is_right = matches!(&taken, Some(Err(ReadFault::NotReadOnly)));
    drop(taken);
    is_right
}

fn is_refused_in_none(alloc: Global, space: &Space) -> Result<bool, NoMemory> {
    let mut arena = meagre(alloc, 0)?;
    let is_right = is_refused(alloc, space, &mut arena);
    drop(arena);
    Ok(is_right)
}

fn is_refused_in_space(alloc: Global) -> Result<bool, NoMemory> {
    let space = new_space(alloc)?;
    let is_right = is_refused_in_none(alloc, &space);
    drop(space);
    is_right
}

// An operation that is no read is refused as such even if there is no memory.
#[test]
fn refused_without_memory(rt: HostRuntime) {
    holds(&rt, is_refused_in_space(rt.alloc()));
}

fn room(arena: &Bump) -> (usize, usize) {
    (arena.allocated_bytes(), arena.chunk_capacity())
}

// Whether the arena has this room after the read, and keeps nothing.
fn leaves_room(
    alloc: Global,
    space: &Space,
    arena: &mut Bump,
    op: &[u8],
    before: (usize, usize),
) -> bool {
    let answered = read(alloc, space, op, arena);
    let is_right = answered.is_some() && room(arena) == before && arena.reset().is_ok();
    drop(answered);
    is_right
}

// As much room after each read as before the first one.
fn leaves_all_room(alloc: Global, space: &Space, arena: &mut Bump) -> bool {
    let before = room(arena);
    leaves_room(alloc, space, arena, ABSENT, before)
        && leaves_room(alloc, space, arena, ALL, before)
        && leaves_room(alloc, space, arena, TAKE, before)
}

fn leaves_an_arena(alloc: Global, space: &Space) -> Result<bool, NoMemory> {
    let mut arena = Bump::try_with_capacity(alloc, AMPLE)?;
    let is_right = leaves_all_room(alloc, space, &mut arena);
    drop(arena);
    Ok(is_right)
}

fn leaves_an_arena_in_space(alloc: Global) -> Result<bool, NoMemory> {
    let space = new_space(alloc)?;
    let is_right = leaves_an_arena(alloc, &space);
    drop(space);
    is_right
}

#[test]
fn the_arena_is_empty_again(rt: HostRuntime) {
    holds(&rt, leaves_an_arena_in_space(rt.alloc()));
}

// Whether both tuples are read, at the second try if memory ran out at the first one.
fn reads_both(alloc: Global, space: &Space, arena: &mut Bump) -> bool {
    match read_once(alloc, space, arena) {
        None => read_once(alloc, space, arena) == Some(true),
        first => first == Some(true),
    }
}

// Whether both are read, or None if memory ran out.
fn read_once(alloc: Global, space: &Space, arena: &mut Bump) -> Option<bool> {
    let answered = read(alloc, space, ALL, arena);
    let said = match &answered {
        Some(Ok(reply)) => says(alloc, reply, BOTH).ok(),
        Some(Err(ReadFault::NoMemory)) => None,
        _ => Some(false),
    };
    drop(answered);
    said
}

fn reads_both_in_arena(alloc: Global, space: &Space) -> bool {
    let mut arena = Bump::new(alloc);
    let is_right = reads_both(alloc, space, &mut arena);
    drop(arena);
    is_right
}

fn new_space_again(alloc: Global) -> Result<Space, NoMemory> {
    match new_space(alloc) {
        Ok(space) => Ok(space),
        Err(NoMemory) => new_space(alloc),
    }
}

fn reads_both_in_space(alloc: Global) -> Result<bool, NoMemory> {
    let space = new_space_again(alloc)?;
    let is_right = reads_both_in_arena(alloc, &space);
    drop(space);
    Ok(is_right)
}

// In a plain run nothing is refused here. `tools/growths` refuses the growth of number N. This test passes if that is
// one of the read's, of the arena or of the reply.
#[test]
fn growths_in_ordinary_memory(rt: HostRuntime) {
    holds(&rt, reads_both_in_space(rt.alloc()));
}
