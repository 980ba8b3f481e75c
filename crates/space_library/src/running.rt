//! A run: operations that bytes spell, on one space.

ghost use Rattle.std.specs.Prelude.{◌≡◌, ◌≢◌, ◌≤◌, [], length, take, drop, IfOk, OnErr};
ghost use Rattle.space.specs.Births.{tuples_of};
ghost use Rattle.space_library.specs.Running.{AnswerIsTooLong, EndsTooLong, LeavesRun, RunsNext, SpellsNone};

use space::Space;
use std::alloc::Global;
use tuple_codec::{Bad, decode_op, encode_result};

/// No refusal.
pub const NONE: u8 = 0;

/// Memory ran out.
pub const NO_MEMORY: u8 = 4;

/// No front of the bytes spells an operation.
pub const MALFORMED: u8 = 5;

/// The answer doesn't fit.
pub const TOO_LARGE: u8 = 7;

/// No birth number is left.
pub const STOPPED: u8 = 21;

/// There is no such version.
pub const BAD_VERSION: u8 = 25;

/// The handle is closed.
pub const CLOSED: u8 = 27;

/// How a run ended: how many bytes of operations were applied, and the refusal, if there was one.
#[derive(Clone, Copy, Debug)]
pub struct Ended {
    pub read: usize,
    pub refusal: u8,
}

/// Applies the operations of these bytes, and adds their answers as long as there are at most `most` bytes of them.
pub fn run_all(
    alloc: Global,
    space: &mut Space,
    bytes: &[u8],
    most: usize,
    answers: &mut Vec<u8>,
) -> Ended
    requires none { answers.old.items ≡ [] }
    ensures run { LeavesRun (tuples_of space.old) (take result.read bytes.now) answers.new.items }
    ensures read { result.read ≤ length bytes.now }
    ensures room { length answers.new.items ≤ most }
    ensures whole { result.refusal ≡ 0 → result.read ≡ length bytes.now }
    ensures malformed { result.refusal ≡ 5 → SpellsNone (drop result.read bytes.now) }
    ensures too_large { result.refusal ≡ 7 → EndsTooLong (tuples_of space.old) (take result.read bytes.now)
        answers.new.items (drop result.read bytes.now) most }
    ensures known { result.refusal ≢ 25 }
{
    let mut read = 0;
    while read < bytes.len() {
        match run_next(alloc, space, &bytes[read..], most, answers) {
            Ok(len) => read += len,
            Err(refusal) => return Ended { read, refusal },
        }
    }
    Ended {
        read,
        refusal: NONE,
    }
}

// Applies the operation at the front, and gives how many bytes spell it. An error leaves the answers as they were.
fn run_next(
    alloc: Global,
    space: &mut Space,
    bytes: &[u8],
    most: usize,
    answers: &mut Vec<u8>,
) -> Result<usize, u8>
    ensures ok { IfOk result (λ len. RunsNext len bytes.now (tuples_of space.old) (tuples_of space.new)
        answers.old.items answers.new.items) }
    ensures room { IfOk result (λ len. length answers.new.items ≤ most) }
    ensures err { OnErr result (answers.new.items ≡ answers.old.items) }
    ensures refusal { result ≢ Err 0 }
    ensures known { result ≢ Err 25 }
    ensures malformed { result ≡ Err 5 → SpellsNone bytes.now }
    ensures too_large { result ≡ Err 7 → AnswerIsTooLong bytes.now (tuples_of space.old) answers.old.items most }
{
    let (op, len) = match decode_op(alloc, bytes) {
        Ok(found) => found,
        Err(Bad::Malformed) => return Err(MALFORMED),
        Err(Bad::NoMemory) => return Err(NO_MEMORY),
    };
    if !space.births_left() {
        return Err(STOPPED);
    }
    let Ok(answer) = space.apply(0, &op) else {
        return Err(NO_MEMORY);
    };
    let old_len = answers.len();
    let Ok(()) = encode_result(&answer, answers) else {
        return Err(NO_MEMORY);
    };
    if answers.len() > most {
        answers.truncate(old_len);
        return Err(TOO_LARGE);
    }
    Ok(len)
}
