//! Bytes that are whole except for one inner fault. They are malformed, with plenty of memory and with none.

use crate::items::{Sort, read};
use linked_list_allocator::LocalHeap;
use std::alloc::Allocator;
use std::test::Fail;
use tuple_codec::Bad;

type Row<'a> = (Sort, &'a [u8]);

// As many bytes as the counts in them ask for, and one of them wrong.
static FAULTS: [Row<'static>; 25] = [
    // a ninth level
    (
        Sort::Tuple,
        b"\x01\x05\x01\x05\x01\x05\x01\x05\x01\x05\x01\x05\x01\x05\x01\x05\x00",
    ),
    (
        Sort::Template,
        b"\x01\x05\x01\x05\x01\x05\x01\x05\x01\x05\x01\x05\x01\x05\x01\x05\x00",
    ),
    (
        Sort::Op,
        b"\x21\x01\x05\x01\x05\x01\x05\x01\x05\x01\x05\x01\x05\x01\x05\x01\x05\x00",
    ),
    (
        Sort::Answer,
        b"\x32\x01\x05\x01\x05\x01\x05\x01\x05\x01\x05\x01\x05\x01\x05\x01\x05\x00",
    ),
    // 33 values, in a tuple in a tuple
    (Sort::Tuple, NESTED_33),
    // 33 fields
    (Sort::Template, FIELDS_33),
    // an rdAll of 65 tuples, and of none
    (Sort::Op, b"\x25\x41\x01\x10"),
    (Sort::Op, b"\x25\x00\x01\x10"),
    // an inAll of 65 tuples, of none, and one whose count is left out
    (Sort::Op, b"\x26\x41\x01\x10"),
    (Sort::Op, b"\x26\x00\x01\x10"),
    (Sort::Op, b"\x26\x01\x10"),
    // an answer of 65 tuples
    (Sort::Answer, TUPLES_65),
    // a truth value of 02, after a text and a number
    (Sort::Tuple, b"\x02\x02\x00\x01k\x04\x02"),
    (
        Sort::Template,
        b"\x02\x01\x00\x00\x00\x00\x00\x00\x00\x01\x04\x02",
    ),
    (Sort::Op, b"\x24\x01\x12\x02\x02\x00\x01k\x04\x02"),
    (Sort::Answer, b"\x34\x02"),
    // a text that isn't UTF-8, after a text that is
    (Sort::Tuple, b"\x02\x02\x00\x01k\x02\x00\x02\xc3\x28"),
    (Sort::Op, b"\x23\x02\x02\x00\x01k\x02\x00\x01\xff"),
    (
        Sort::Answer,
        b"\x35\x02\x01\x02\x00\x01k\x01\x02\x00\x01\xff",
    ),
    // a wide number of 15 bytes, after a text
    (
        Sort::Tuple,
        b"\x02\x02\x00\x01k\x06\x00\x00\x00\x00\x00\x00\x00\x00\x00\x00\x00\x00\x00\x00\x01",
    ),
    (
        Sort::Template,
        b"\x02\x02\x00\x01k\x06\x00\x00\x00\x00\x00\x00\x00\x00\x00\x00\x00\x00\x00\x00\x01",
    ),
    // an unknown tag
    (Sort::Tuple, b"\x02\x02\x00\x01k\x07"),
    (Sort::Template, b"\x02\x02\x00\x01k\x17"),
    (Sort::Op, b"\x28\x01\x02\x00\x01k"),
    (Sort::Answer, b"\x38"),
];

// `((true ..))` with 33 truth values.
const NESTED_33: &[u8] = &[
    1, 5, 33, 4, 1, 4, 1, 4, 1, 4, 1, 4, 1, 4, 1, 4, 1, 4, 1, 4, 1, 4, 1, 4, 1, 4, 1, 4, 1, 4, 1,
    4, 1, 4, 1, 4, 1, 4, 1, 4, 1, 4, 1, 4, 1, 4, 1, 4, 1, 4, 1, 4, 1, 4, 1, 4, 1, 4, 1, 4, 1, 4, 1,
    4, 1, 4, 1, 4, 1,
];

// `(* ..)` with 33 fields.
const FIELDS_33: &[u8] = &[
    33, 0x10, 0x10, 0x10, 0x10, 0x10, 0x10, 0x10, 0x10, 0x10, 0x10, 0x10, 0x10, 0x10, 0x10, 0x10,
    0x10, 0x10, 0x10, 0x10, 0x10, 0x10, 0x10, 0x10, 0x10, 0x10, 0x10, 0x10, 0x10, 0x10, 0x10, 0x10,
    0x10, 0x10,
];

// `all 65 () ..`.
const TUPLES_65: &[u8] = &[
    0x35, 65, 0, 0, 0, 0, 0, 0, 0, 0, 0, 0, 0, 0, 0, 0, 0, 0, 0, 0, 0, 0, 0, 0, 0, 0, 0, 0, 0, 0,
    0, 0, 0, 0, 0, 0, 0, 0, 0, 0, 0, 0, 0, 0, 0, 0, 0, 0, 0, 0, 0, 0, 0, 0, 0, 0, 0, 0, 0, 0, 0, 0,
    0, 0, 0, 0, 0,
];

// The same values without a fault.
static WHOLE: [Row<'static>; 7] = [
    (
        Sort::Tuple,
        b"\x01\x05\x01\x05\x01\x05\x01\x05\x01\x05\x01\x05\x01\x05\x00",
    ),
    (Sort::Template, b"\x02\x02\x00\x01k\x15"),
    (Sort::Template, b"\x02\x02\x00\x01k\x16"),
    (
        Sort::Tuple,
        b"\x02\x02\x00\x01k\x06\x00\x00\x00\x00\x00\x00\x00\x00\x00\x00\x00\x00\x00\x00\x00\x01",
    ),
    (Sort::Op, b"\x24\x01\x12\x02\x02\x00\x01k\x04\x01"),
    (Sort::Op, b"\x26\x40\x01\x10"),
    (Sort::Answer, b"\x35\x02\x01\x02\x00\x01k\x01\x02\x00\x01l"),
];

// Why the bytes aren't read, or `None` if they are.
fn refusal<A: Allocator>(alloc: &A, (sort, bytes): Row<'_>) -> Option<Bad> {
    match read(alloc, sort, bytes) {
        Ok((item, _len)) => {
            drop(item);
            None
        }
        Err(bad) => Some(bad),
    }
}

// Why the first row isn't read whose result is unexpected, or the expected refusal if no row differs.
fn refusal_of_all<A: Allocator>(alloc: &A, rows: &[Row<'_>], expected: Option<Bad>) -> Option<Bad> {
    for &row in rows {
        let found = refusal(alloc, row);
        if found != expected {
            return found;
        }
    }
    expected
}

#[test]
fn inner_faults_with_plenty_of_memory(rt: HostRuntime) {
    let alloc = rt.alloc();
    let faulty = refusal_of_all(&alloc, FAULTS.as_slice(), Some(Bad::Malformed));
    assert!(rt; faulty == Some(Bad::Malformed));
    assert_eq!(rt; refusal_of_all(&alloc, WHOLE.as_slice(), None), None);
}

// A heap whose only block is taken refuses whatever it is asked for.
#[test]
fn inner_faults_without_memory(rt: HostRuntime) -> Result<(), Fail> {
    let heap = LocalHeap::new(rt.alloc(), 0)?;
    let taken: Vec<u8, &LocalHeap> = Vec::with_capacity(&heap, 1)?;
    let faulty = refusal_of_all(&heap, FAULTS.as_slice(), Some(Bad::Malformed));
    let whole = refusal_of_all(&heap, WHOLE.as_slice(), Some(Bad::NoMemory));
    drop(taken);
    drop(heap);
    assert!(rt; faulty == Some(Bad::Malformed));
    assert!(rt; whole == Some(Bad::NoMemory));
    Ok(())
}
