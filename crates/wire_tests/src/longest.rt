//! The longest new view that a primary makes. It bounds the bytes that a replica keeps of its own new view, and is
//! within the limit of frames.

use crate::decoding::comes_back;
use crate::frames::{DIGEST, ONE, TWO, signed};
use crate::limits::longest_change;
use std::alloc::{AllocError, Global};
use std::test::Fail;
use test_bytes::{joined, piece};
use wire::{MAX_FRAME, MAX_VIEW_CHANGE};

// Of ten replicas, the most that there are.
const REPLICAS: u8 = 10;

// Of numbers within the marks, for K = 16.
const NUMBERS: usize = 32;

// Of requests in a batch.
const REQUESTS: usize = 16;

// One text of 1,020 bytes, so a tuple of 1,024 bytes, which is spelled as a template is.
fn longest_tuple(alloc: Global) -> Result<Vec<u8>, AllocError> {
    let text = Vec::from_elem(alloc, b'k', 1020)?;
    joined(alloc, &[b"\x01\x02\x03\xfc", &text])
}

// A `cas` of the longest template and tuple.
fn longest_body(alloc: Global) -> Result<Vec<u8>, AllocError> {
    let tuple = longest_tuple(alloc)?;
    joined(alloc, &[b"\x41\x01\x00", ONE, b"\x00\x24", &tuple, &tuple])
}

fn put_macs(frame: &mut Vec<u8>) -> Result<(), AllocError> {
    frame.extend_from_slice(&[0, REPLICAS])?;
    for receiver in 0..REPLICAS {
        frame.extend_from_slice(&[0, receiver])?;
        frame.extend_from_slice(&[receiver; 32])?;
    }
    Ok(())
}

// With MACs for all replicas.
fn longest_sealed(alloc: Global) -> Result<Vec<u8>, AllocError> {
    let body = longest_body(alloc)?;
    let mut frame = piece(alloc, &body)?;
    put_macs(&mut frame)?;
    Ok(frame)
}

// With its length in front.
fn longest_request(alloc: Global) -> Result<Vec<u8>, AllocError> {
    let frame = longest_sealed(alloc)?;
    piece(alloc, &frame)
}

fn repeated(alloc: Global, bytes: &[u8], times: usize) -> Result<Vec<u8>, AllocError> {
    let mut all = Vec::new(alloc);
    for _ in 0..times {
        all.extend_from_slice(bytes)?;
    }
    Ok(all)
}

// A batch of as many requests as it may have: their count in a byte, and each after its length.
fn longest_batch(alloc: Global) -> Result<Vec<u8>, AllocError> {
    let request = longest_request(alloc)?;
    let requests = repeated(alloc, &request, REQUESTS)?;
    joined(alloc, &[&[16], &requests])
}

// A view change of each replica, each after its length.
fn longest_changes(alloc: Global) -> Result<Vec<u8>, AllocError> {
    let mut changes = Vec::new(alloc);
    for sender in 0..REPLICAS {
        let change = longest_change(alloc, sender)?;
        changes.extend_from_slice(&piece(alloc, &change)?)?;
    }
    Ok(changes)
}

// A new view of all these view changes and a batch for each number.
fn longest_new_view(alloc: Global) -> Result<Vec<u8>, AllocError> {
    let changes = longest_changes(alloc)?;
    let batch = longest_batch(alloc)?;
    let batches = repeated(alloc, &batch, NUMBERS)?;
    let body = joined(
        alloc,
        &[
            b"\x47\x00\x01",
            ONE,
            &[REPLICAS],
            &changes,
            TWO,
            DIGEST,
            &[32],
            &batches,
        ],
    )?;
    signed(alloc, &body)
}

fn len_of_change(alloc: Global) -> Result<usize, AllocError> {
    let change = longest_change(alloc, 0)?;
    Ok(change.len())
}

// Its ten view changes are 18 bytes shorter each than their limit, which none has exactly.
#[test]
fn the_longest_new_view(rt: HostRuntime) -> Result<(), Fail> {
    assert!(rt; len_of_change(rt.alloc())? == MAX_VIEW_CHANGE - 18);
    assert!(rt; 3_872_579 < MAX_FRAME);
    let frame = longest_new_view(rt.alloc())?;
    assert!(rt; frame.len() == 3_872_579 - 180 && comes_back(rt.alloc(), &frame)?);
    Ok(())
}

#[test]
fn the_longest_batch(rt: HostRuntime) -> Result<(), Fail> {
    let batch = longest_batch(rt.alloc())?;
    assert_eq!(rt; batch.len(), 38_577);
    Ok(())
}
