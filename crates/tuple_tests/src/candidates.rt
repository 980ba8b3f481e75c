//! Candidates and touched pages.

use space::{PAGES, Space, Watched};
use std::alloc::{AllocError, Global};
use std::test::Fail;
use test_bytes::read_op;
use tuple_codec::Op;

// The operation of these bytes is applied, at the second try if memory ran out at the first one.
fn is_done(space: &mut Space, alloc: Global, op: &[u8]) -> bool {
    match read_op(alloc, op) {
        Some(op) => {
            let is_done = is_applied(space, &op);
            drop(op);
            is_done
        }
        None => false,
    }
}

fn is_applied(space: &mut Space, op: &Op<Global>) -> bool {
    let count = space.count();
    for _try in 0..8 {
        if !space.births_left() {
            return false;
        }
        if space.apply(0, op).is_ok() {
            return true;
        }
        if space.count() != count {
            return false;
        }
    }
    false
}

// out (first i)
fn out_pair(alloc: Global, first: u8, i: u8) -> Result<Vec<u8>, AllocError> {
    let mut op = Vec::new(alloc);
    op.extend_from_slice(b"\x21\x02\x01\0\0\0\0\0\0\0")?;
    op.push(first)?;
    op.extend_from_slice(b"\x01\0\0\0\0\0\0\0")?;
    op.push(i)?;
    Ok(op)
}

fn put_pair(space: &mut Space, alloc: Global, first: u8, i: u8) -> Result<(), AllocError> {
    let op = out_pair(alloc, first, i)?;
    let is_put = is_done(space, alloc, &op);
    drop(op);
    if is_put { Ok(()) } else { Err(AllocError) }
}

// 100 tuples `(1 i)`, 100 tuples `(2 i)` and one `(1)`.
fn put_many(space: &mut Space, alloc: Global) -> Result<(), AllocError> {
    for i in 0..100 {
        put_pair(space, alloc, 1, i)?;
    }
    for i in 0..100 {
        put_pair(space, alloc, 2, i)?;
    }
    if is_done(space, alloc, b"\x21\x01\x01\0\0\0\0\0\0\0\x01") {
        Ok(())
    } else {
        Err(AllocError)
    }
}

// How many candidates the template of an `rdp` of these bytes has.
fn candidates(space: &Space, alloc: Global, rdp: &[u8]) -> Option<usize> {
    match read_op(alloc, rdp) {
        Some(op) => {
            let count = candidates_of(space, &op);
            drop(op);
            count
        }
        None => None,
    }
}

fn candidates_of(space: &Space, op: &Op<Global>) -> Option<usize> {
    match op {
        Op::Rdp(template) => Some(space.candidates(template).len()),
        _ => None,
    }
}

// An `rdp`, and how many candidates it has among the many.
static CANDIDATES: [(&[u8], usize); 4] = [
    // (1 *)
    (b"\x22\x02\x01\0\0\0\0\0\0\0\x01\x10", 100),
    // (* *)
    (b"\x22\x02\x10\x10", 200),
    // (*)
    (b"\x22\x01\x10", 1),
    // ()
    (b"\x22\0", 0),
];

// The first row with another count, and that count.
fn first_wrong(space: &Space, alloc: Global) -> Option<(usize, Option<usize>)> {
    for (number, &(rdp, count)) in CANDIDATES.iter().enumerate() {
        let found = candidates(space, alloc, rdp);
        if found != Some(count) {
            return Some((number, found));
        }
    }
    None
}

#[test]
fn candidates_by_length_and_first_value(rt: HostRuntime) -> Result<(), Fail> {
    let mut space = Space::new(rt.alloc());
    let put = put_many(&mut space, rt.alloc());
    let wrong = first_wrong(&space, rt.alloc());
    drop(space);
    put?;
    assert_eq!(rt; wrong, None);
    Ok(())
}

// The operation is applied, at the second try or a later one if memory ran out at the first one.
fn is_watched(watched: &mut Watched, op: &Op<Global>) -> bool {
    for _try in 0..8 {
        if !watched.space().births_left() {
            return false;
        }
        if watched.apply(0, op).is_ok() {
            return true;
        }
    }
    false
}

fn is_put(watched: &mut Watched, alloc: Global, op: &[u8]) -> bool {
    match read_op(alloc, op) {
        Some(op) => {
            let is_put = is_watched(watched, &op);
            drop(op);
            is_put
        }
        None => false,
    }
}

fn is_page_0_touched_alone(watched: &Watched) -> bool {
    for page in 0..PAGES {
        if watched.touched(page) != (page == 0) {
            return false;
        }
    }
    true
}

// In a new space after `untouch` and `out (1)`, page 0 alone is touched.
#[test]
fn a_page_is_touched(rt: HostRuntime) {
    let mut watched = Watched::of(Space::new(rt.alloc()));
    watched.untouch();
    let is_put = is_put(&mut watched, rt.alloc(), b"\x21\x01\x01\0\0\0\0\0\0\0\x01");
    let is_touched = is_page_0_touched_alone(&watched);
    drop(watched);
    assert!(rt; is_put);
    assert!(rt; is_touched);
}
