//! One operation that bytes spell, on one space.

ghost use Rattle.std.specs.Prelude.{◌≡◌, ◌≢◌, ◌^◌, ◌≤◌, Err, true, length, take, drop, IfOk, IfErr, OnErr};
ghost use Rattle.tuple_codec.specs.OperationView.{operation_of};
ghost use Rattle.tuple_codec.specs.Spelling.{SpellsSomeOperation};
ghost use Rattle.space_library.specs.Refusals.{is_refusal};
ghost use Rattle.space_library.specs.Applied.{AppliesSpelled, AsksForMore, most_answer};

use crate::running::{MALFORMED, NO_MEMORY, STOPPED, TOO_LARGE};
use crate::writing::write_answer;
use space::Space;
use std::alloc::Global;
use tuple_codec::{Op, decode_judged_op, is_op};
use tuple_tree::MAX_LEN;

/// Applies the operation that the bytes, whole, spell, as client 0's. It writes the answer in front of `answer`, and
/// gives how many bytes it has. A refusal changes nothing.
pub fn apply_spelled(
    alloc: Global,
    space: &mut Space,
    bytes: &[u8],
    answer: &mut [u8],
) -> Result<usize, u8>
    ensures ok { IfOk result (λ len. AppliesSpelled bytes.now (take len answer.new) space.old space.new) }
    ensures rest { IfOk result (λ len. drop len answer.new ≡ drop len answer.old) }
    ensures written { IfOk result (λ len. len ≤ length answer.old) }
    ensures err { OnErr result ((space.new ≡ space.old) × (answer.new ≡ answer.old)) }
    ensures malformed { result ≡ Err 5 → SpellsSomeOperation bytes.now → ⊥ }
    ensures too_large { result ≡ Err 7 → AsksForMore bytes.now (length answer.old) }
    ensures stopped { result ≡ Err 21 → 2 ^ 62 ≤ space.old.next }
    ensures refusal { (result ≢ Err 0) × (result ≢ Err 27) }
    ensures number { IfErr result (λ n. is_refusal n ≡ true) }
{
    if !is_op(bytes) {
        return Err(MALFORMED);
    }
    let Ok(op) = decode_judged_op(alloc, bytes) else {
        return Err(NO_MEMORY);
    };
    if answer.len() < longest_answer(&op) {
        return Err(TOO_LARGE);
    }
    if !space.births_left() {
        return Err(STOPPED);
    }
    let Ok(told) = space.apply(0, &op) else {
        return Err(NO_MEMORY);
    };
    told.note_valid();
    Ok(write_answer(&told, answer))
}

// How many bytes the longest answer to the operation may have.
fn longest_answer(op: &Op<Global>) -> usize
    ensures { result ≡ most_answer (operation_of op.now) }
{
    match op {
        Op::Out(_) | Op::Upgrade => 1,
        Op::Rdp(_) | Op::Inp(_) => 1 + MAX_LEN,
        Op::Cas(_, _) => 2,
        Op::RdAll(max, _) | Op::InAll(max, _) => 2 + MAX_LEN * max.count as usize,
    }
}
