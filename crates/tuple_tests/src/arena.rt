//! A value read into an arena equals the one read into ordinary memory.

use crate::items::{Item, Sort, are_same, read};
use bumpalo::Bump;
use std::alloc::Global;
use std::test::Fail;
use tuple_codec::{Bad, Op};

// `(1 "a")`.
static TUPLE: [u8; 14] = [2, 1, 0, 0, 0, 0, 0, 0, 0, 1, 2, 0, 1, 97];

// `((* x09) ?int)`.
static TEMPLATE: [u8; 9] = [2, 5, 2, 0x10, 3, 0, 1, 9, 0x11];

// `cas ("k" *) ("k" 1)`.
static CAS: [u8; 21] = [
    0x24, 2, 2, 0, 1, 0x6b, 0x10, 2, 2, 0, 1, 0x6b, 1, 0, 0, 0, 0, 0, 0, 0, 1,
];

// How many bytes are read into the arena, and whether they are the same item as the near one.
fn far_in(
    bump: &Bump,
    near: &Item<Global>,
    sort: Sort,
    bytes: &[u8],
) -> Result<(usize, bool), Bad> {
    let (far, far_len) = read(bump, sort, bytes)?;
    let is_same = are_same(near, &far);
    drop(far);
    Ok((far_len, is_same))
}

// The same of a new arena.
fn far(alloc: Global, near: &Item<Global>, sort: Sort, bytes: &[u8]) -> Result<(usize, bool), Bad> {
    let bump = Bump::new(alloc);
    let found = far_in(&bump, near, sort, bytes);
    drop(bump);
    found
}

// Whether so many bytes are read into ordinary memory and into an arena, and both are the same item.
fn are_both(alloc: Global, sort: Sort, bytes: &[u8], len: usize) -> Result<bool, Bad> {
    let (near, near_len) = read(alloc, sort, bytes)?;
    let found = far(alloc, &near, sort, bytes);
    drop(near);
    let (far_len, is_same) = found?;
    Ok(near_len == len && far_len == len && is_same)
}

#[test]
fn a_tuple_in_an_arena(rt: HostRuntime) -> Result<(), Fail> {
    assert!(rt; are_both(rt.alloc(), Sort::Tuple, TUPLE.as_slice(), 14)?);
    Ok(())
}

#[test]
fn a_template_in_an_arena(rt: HostRuntime) -> Result<(), Fail> {
    assert!(rt; are_both(rt.alloc(), Sort::Template, TEMPLATE.as_slice(), 9)?);
    Ok(())
}

fn is_cas(alloc: Global, bytes: &[u8]) -> Result<bool, Bad> {
    let (item, _len) = read(alloc, Sort::Op, bytes)?;
    let is_cas = matches!(&item, Item::Op(Op::Cas(_, _)));
    drop(item);
    Ok(is_cas)
}

#[test]
fn an_operation_in_an_arena(rt: HostRuntime) -> Result<(), Fail> {
    assert!(rt; are_both(rt.alloc(), Sort::Op, CAS.as_slice(), 21)?);
    assert!(rt; is_cas(rt.alloc(), CAS.as_slice())?);
    Ok(())
}
