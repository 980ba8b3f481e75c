//! The answers of tests. The owner of the tested value asks one question, drops the value by a call, and hands on the
//! answer. So a test has one way out.

use std::alloc::Global;
use std::process::Abort;
use terms::NoMemory;
pub use test_bytes::all_hold;
use tuple_codec::{Answer, Op, encode_op, encode_result};

/// Ends a test whose question has another answer than yes. A test that asks so by a call has no function beside it that
/// reports its result.
pub fn holds(rt: &impl Abort, answer: Result<bool, NoMemory>) {
    match answer {
        Ok(true) => {}
        Ok(false) => rt.panic("it does not hold"),
        Err(NoMemory) => rt.panic("error: out of memory"),
    }
}

fn is_written(
    written: Result<(), NoMemory>,
    bytes: &[u8],
    expected: &[u8],
) -> Result<bool, NoMemory> {
    match written {
        Ok(()) => Ok(bytes == expected),
        Err(NoMemory) => Err(NoMemory),
    }
}

/// Whether these bytes spell the operation.
pub fn spells_op(alloc: Global, op: &Op<Global>, expected: &[u8]) -> Result<bool, NoMemory> {
    let mut bytes = Vec::new(alloc);
    let written = encode_op(op, &mut bytes);
    let is_right = is_written(written, &bytes, expected);
    drop(bytes);
    is_right
}

/// Whether these bytes spell the answer.
pub fn spells_answer(
    alloc: Global,
    answer: &Answer<Global>,
    expected: &[u8],
) -> Result<bool, NoMemory> {
    let mut bytes = Vec::new(alloc);
    let written = encode_result(answer, &mut bytes);
    let is_right = is_written(written, &bytes, expected);
    drop(bytes);
    is_right
}
