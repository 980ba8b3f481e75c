//! The request frames in the text of a batch.

ghost use Rattle.std.specs.Prelude.{◌≡◌, ◌↔◌, ◌≤◌, IsTrue, length, map};
ghost use Rattle.wire_format.specs.Reading.{requests_at, request_frame_at};
ghost use Rattle.wire_format.specs.Spelling.{IsBatch, IsCarried, is_ordered_request};
ghost use Rattle.wire_format.specs.Words.{requests_of};
ghost use Rattle.wire.specs.Results.{YieldsFront};

use crate::carried::{MAX_REQUESTS, is_request_frame};
use crate::reading::{read_byte, read_piece};
use arrayvec::ArrayVec;

/// Whether the bytes, whole, are a frame of an ordered request, as batches have them. Takes no memory.
pub fn is_ordered_request(frame: &[u8]) -> bool
    ensures { IsTrue result ↔ IsCarried is_ordered_request frame.now }
{
    is_request_frame(frame)
}

/// The request frames of a batch's text, in order and in their places. A text that is no batch has none. Takes no
/// memory.
#[tactic(auto, using(crate::proofs::Requesting::no_batch, crate::proofs::Requesting::spare, crate::proofs::Requesting::whole, crate::proofs::Requesting::at_most_16))]
pub fn requests(text: &[u8]) -> ArrayVec<&[u8], MAX_REQUESTS>
    ensures frames { map (λ frame. frame.now) result.items ≡ requests_of text.now }
    ensures few { length (requests_of text.now) ≤ 16 }
{
    let Some((requests, rest)) = read_requests(text) else {
        return ArrayVec::new();
    };
    if rest.is_empty() {
        requests
    } else {
        ArrayVec::new()
    }
}

/// The request frames of a batch's text, as by [`requests`]. The text is known to be a batch's, so it is split by the
/// lengths in it, and nothing is judged again.
pub fn split_batch(text: &[u8]) -> ArrayVec<&[u8], MAX_REQUESTS>
    requires { IsBatch 0 text.now }
    ensures { map (λ frame. frame.now) result.items ≡ requests_of text.now }
{
    let Some((count, front)) = read_byte(text) else {
        unreachable!()
    };
    let mut requests = ArrayVec::new();
    let mut rest = front;
    for _i in 0..count {
        let Some((frame, after)) = read_piece(rest) else {
            unreachable!()
        };
        requests.push(frame);
        rest = after;
    }
    requests
}

fn read_request(bytes: &[u8]) -> Option<(&[u8], &[u8])>
    ensures { YieldsFront (λ x. x.now) result (request_frame_at bytes.now) }
{
    let (frame, rest) = read_piece(bytes)?;
    if !is_request_frame(frame) {
        return None;
    }
    Some((frame, rest))
}

// The requests of a batch at the front, and the rest.
#[tactic(auto, unfolding(wire_format::specs::Reading::requests_at))]
fn read_requests(bytes: &[u8]) -> Option<(ArrayVec<&[u8], MAX_REQUESTS>, &[u8])>
    ensures { YieldsFront (λ fs. map (λ f. f.now) fs.items) result (requests_at 0 bytes.now) }
{
    let (count, front) = read_byte(bytes)?;
    if count as usize > MAX_REQUESTS {
        return None;
    }
    let mut requests = ArrayVec::new();
    let mut rest = front;
    for _i in 0..count {
        let (frame, after) = read_request(rest)?;
        requests.push(frame);
        rest = after;
    }
    Some((requests, rest))
}
