//! The worked batch of two requests.

ghost use Rattle.wire_format.specs.Spelling.{IsCarried, is_ordered_request};

use crate::frames::{REQUEST, with_macs};
use std::alloc::{AllocError, Global};
use std::test::Fail;
use terms::NoMemory;
use test_bytes::{joined, piece};
use wire::{Batch, is_ordered_request, requests};

// The request `out (2)` of client 1 with timestamp 2.
const OTHER_REQUEST: &[u8] =
    b"\x41\x01\x01\x00\x00\x00\x00\x00\x00\x00\x02\x00\x21\x01\x01\x00\x00\x00\x00\x00\x00\x00\x02";

// The batch's text, from the layout of batches.
fn text_of(alloc: Global, first: &[u8], second: &[u8]) -> Result<Vec<u8>, AllocError> {
    let first = piece(alloc, first)?;
    let second = piece(alloc, second)?;
    joined(alloc, &[&[2], &first, &second])
}

fn are_read(text: &[u8], first: &[u8], second: &[u8]) -> bool {
    let found = requests(text);
    found.len() == 2 && found[0] == first && found[1] == second
}

// Whether these are the frames' text, which fills the memory that was taken.
fn is_made(alloc: Global, first: Vec<u8>, second: Vec<u8>, text: &[u8]) -> Result<bool, NoMemory>
    requires first { IsCarried is_ordered_request first.items }
    requires second { IsCarried is_ordered_request second.items }
{
    let batch = Batch::of(alloc, &[first, second])?;
    Ok(batch.text.as_slice() == text && batch.text.capacity() == text.len())
}

fn holds_both(alloc: Global, first: Vec<u8>, second: Vec<u8>) -> Result<bool, NoMemory> {
    let text = text_of(alloc, &first, &second)?;
    if !is_ordered_request(&first) || !is_ordered_request(&second) {
        return Ok(false);
    }
    Ok(are_read(&text, &first, &second) && is_made(alloc, first, second, &text)?)
}

#[test]
fn a_batch_of_two(rt: HostRuntime) -> Result<(), Fail> {
    let first = with_macs(rt.alloc(), REQUEST)?;
    let second = with_macs(rt.alloc(), OTHER_REQUEST)?;
    assert!(rt; holds_both(rt.alloc(), first, second)?);
    Ok(())
}
