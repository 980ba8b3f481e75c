//! How much memory calls take. Their results fill a heap, so they take no more beside them, not even for a while. In
//! a heap with one block less they say that memory ran out.
//!
//! A heap hands out blocks of multiples of 16 bytes. A tuple or template is one block, with the spellings of its items
//! and without their count, whatever is nested in it. An empty one has no block.

use crate::items::{Item, Sort, copied, read, write};
use linked_list_allocator::LocalHeap;
use std::alloc::{AllocError, Global};
use std::mem::size_of;
use std::test::Fail;
use tuple_codec::Bad;
use tuple_tree::Tuple;

type Heap = &'static LocalHeap;

// The unit of a heap's blocks, and the room of four tuples.
const UNIT: usize = 16;

const TUPLES: usize = 4 * size_of::<Tuple<Heap>>();

// The sort of a value, its spelling, and the room for its blocks.
type Row<'a> = (Sort, &'a [u8], usize);

static ROWS: [Row<'static>; 6] = [
    // (1 "a" x09 true)
    (
        Sort::Tuple,
        b"\x04\x01\0\0\0\0\0\0\0\x01\x02\0\x01a\x03\0\x01\x09\x04\x01",
        2 * UNIT,
    ),
    // (("a" "b" "c" "d") x09 x0a "e")
    (
        Sort::Tuple,
        b"\x04\x05\x04\x02\0\x01a\x02\0\x01b\x02\0\x01c\x02\0\x01d\x03\0\x01\x09\x03\0\x01\x0a\x02\0\x01e",
        2 * UNIT,
    ),
    // (* ?text (* * * "a") "bcd")
    (
        Sort::Template,
        b"\x04\x10\x12\x05\x04\x10\x10\x10\x02\0\x01a\x02\0\x03bcd",
        2 * UNIT,
    ),
    // cas ("k" * * *) ("k" 1 true "l")
    (
        Sort::Op,
        b"\x24\x04\x02\0\x01k\x10\x10\x10\x04\x02\0\x01k\x01\0\0\0\0\0\0\0\x01\x04\x01\x02\0\x01l",
        3 * UNIT,
    ),
    // found ("a longer" true true true)
    (
        Sort::Answer,
        b"\x32\x04\x02\0\x08a longer\x04\x01\x04\x01\x04\x01",
        2 * UNIT,
    ),
    // all 4 () () (true true true true) ()
    (
        Sort::Answer,
        b"\x35\x04\0\0\x04\x04\x01\x04\x01\x04\x01\x04\x01\0",
        TUPLES + UNIT,
    ),
];

// Whether the decoded value fills the heap, if it has room for the value.
fn decoded(heap: &LocalHeap, sort: Sort, bytes: &[u8]) -> Result<bool, Bad> {
    let (item, _len) = read(heap, sort, bytes)?;
    let is_full = heap.free() == 0;
    drop(item);
    Ok(is_full)
}

fn fills(alloc: Global, (sort, bytes, room): Row<'_>) -> Result<bool, AllocError> {
    let heap = LocalHeap::new(alloc, room)?;
    Ok(decoded(&heap, sort, bytes) == Ok(true))
}

fn wants_all(alloc: Global, (sort, bytes, room): Row<'_>) -> Result<bool, AllocError> {
    let heap = LocalHeap::new(alloc, room.saturating_sub(UNIT))?;
    Ok(decoded(&heap, sort, bytes) == Err(Bad::NoMemory) && heap.used() == 0)
}

#[test]
fn decoded_values_fill_their_room(rt: HostRuntime) -> Result<(), Fail> {
    for &row in &ROWS {
        assert!(rt; fills(rt.alloc(), row)?);
        assert!(rt; wants_all(rt.alloc(), row)?);
    }
    Ok(())
}

fn fills_as_copy(heap: &LocalHeap, item: &Item<Global>) -> Result<bool, Bad> {
    let copy = copied(item, heap)?;
    let is_full = heap.free() == 0;
    drop(copy);
    Ok(is_full)
}

// Whether a copy of a value in ordinary memory fills the heap.
fn copy_of(alloc: Global, heap: &LocalHeap, sort: Sort, bytes: &[u8]) -> Result<bool, Bad> {
    let (item, _len) = read(alloc, sort, bytes)?;
    let is_full = fills_as_copy(heap, &item);
    drop(item);
    is_full
}

// The same of a heap of the row's room.
fn copy_fills(alloc: Global, (sort, bytes, room): Row<'_>) -> Result<bool, Bad> {
    let heap = LocalHeap::new(alloc, room)?;
    let is_full = copy_of(alloc, &heap, sort, bytes);
    drop(heap);
    is_full
}

#[test]
fn copies_fill_their_room(rt: HostRuntime) -> Result<(), Fail> {
    for &row in &ROWS {
        assert!(rt; copy_fills(rt.alloc(), row)?);
    }
    Ok(())
}

fn spells(heap: &LocalHeap, item: &Item<Global>, bytes: &[u8]) -> Result<bool, Bad> {
    let mut out = Vec::with_capacity(heap, bytes.len())?;
    let written = write(item, &mut out);
    let is_right = out.as_slice() == bytes;
    drop(out);
    written?;
    Ok(is_right)
}

// Whether these bytes are written if there is room only for them.
fn encoded(alloc: Global, heap: &LocalHeap, sort: Sort, bytes: &[u8]) -> Result<bool, Bad> {
    let (item, _len) = read(alloc, sort, bytes)?;
    let is_right = spells(heap, &item, bytes);
    drop(item);
    is_right
}

fn is_written(alloc: Global, (sort, bytes, _room): Row<'_>) -> Result<bool, Bad> {
    let heap = LocalHeap::new(alloc, bytes.len())?;
    let is_right = encoded(alloc, &heap, sort, bytes);
    drop(heap);
    is_right
}

#[test]
fn encoders_take_nothing_where_there_is_room(rt: HostRuntime) -> Result<(), Fail> {
    for &row in &ROWS {
        assert!(rt; is_written(rt.alloc(), row)?);
    }
    Ok(())
}
