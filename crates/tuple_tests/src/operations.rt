//! Worked rows of the grammar of operations and answers.

use crate::items::{Item, Sort, read, write};
use std::alloc::Global;
use std::test::Fail;
use terms::NoMemory;
use tuple_codec::{Bad, is_op, is_result};

static ROWS: [&[u8]; 10] = [
    // out (1 "a")
    b"\x21\x02\x01\x00\x00\x00\x00\x00\x00\x00\x01\x02\x00\x01a",
    // out (("x") true)
    b"\x21\x02\x05\x01\x02\x00\x01x\x04\x01",
    // cas ("k" *) ("k" 1)
    b"\x24\x02\x02\x00\x01k\x10\x02\x02\x00\x01k\x01\x00\x00\x00\x00\x00\x00\x00\x01",
    // rdAll 64 (*)
    b"\x25\x40\x01\x10",
    // out (w1), out (w-1)
    b"\x21\x01\x06\0\0\0\0\0\0\0\0\0\0\0\0\0\0\0\x01",
    b"\x21\x01\x06\xff\xff\xff\xff\xff\xff\xff\xff\xff\xff\xff\xff\xff\xff\xff\xff",
    // rdp (?wide)
    b"\x22\x01\x16",
    // inAll 2 (?wide), inAll 64 (*)
    b"\x26\x02\x01\x16",
    b"\x26\x40\x01\x10",
    // upgrade
    b"\x27",
];

// All of () and (true)
const ALL: &[u8] = b"\x35\x02\x00\x01\x04\x01";

fn is_written(alloc: Global, item: &Item<Global>, row: &[u8]) -> Result<bool, NoMemory> {
    let mut out = Vec::new(alloc);
    let written = write(item, &mut out);
    let is_right = out.as_slice() == row;
    drop(out);
    written?;
    Ok(is_right)
}

fn comes_back(alloc: Global, sort: Sort, row: &[u8]) -> Result<bool, Bad> {
    let (item, len) = read(alloc, sort, row)?;
    let is_right = is_written(alloc, &item, row);
    drop(item);
    Ok(is_right? && len == row.len())
}

#[test]
fn operations_come_back(rt: HostRuntime) -> Result<(), Fail> {
    for &row in &ROWS {
        assert!(rt; comes_back(rt.alloc(), Sort::Op, row)?);
    }
    Ok(())
}

#[test]
fn answers_come_back(rt: HostRuntime) -> Result<(), Fail> {
    assert!(rt; comes_back(rt.alloc(), Sort::Answer, ALL)?);
    assert!(rt; is_result(ALL));
    Ok(())
}

// Whether no front of the row is an operation.
fn is_none_cut(row: &[u8]) -> bool {
    for len in 0..row.len() {
        if is_op(&row[..len]) {
            return false;
        }
    }
    true
}

#[test]
fn no_cut_row_is_an_operation(rt: HostRuntime) {
    for &row in &ROWS {
        assert!(rt; is_op(row) && is_none_cut(row));
    }
}

#[test]
fn no_other_truth_value(rt: HostRuntime) {
    assert!(rt; !is_op(b"\x21\x02\x05\x01\x02\x00\x01x\x04\x02"));
}
