//! Appending texts to bytes.

ghost use Rattle.std.specs.Prelude.{◌≡◌, IfOk, List, ℕ, string_bytes};
ghost use Rattle.tuple_codec.specs.OperationView.{operation_of, outcome_of};
ghost use Rattle.tuple_text.specs.Written.{WritesText, operation_written, outcome_text};

use std::alloc::{AllocError, Global};
use terms::NoMemory;
use tuple_codec::{Answer, Op};
use tuple_text::{write_answer, write_op};

// Appends these bytes.
pub(crate) fn append(text: &[u8], out: &mut Vec<u8>) -> Result<(), NoMemory>
    ensures { WritesText result out.old.items text.now out.new.items }
{
    Ok(out.extend_from_slice(text)?)
}

// Appends a text, if there was memory for it.
pub(crate) fn put(text: Result<String, AllocError>, out: &mut Vec<u8>) -> Result<(), NoMemory>
    ensures { (line : List ℕ) → IfOk text (λ t. string_bytes t ≡ line)
        → WritesText result out.old.items line out.new.items }
{
    match text {
        Ok(text) => append(text.as_bytes(), out),
        Err(_) => Err(NoMemory),
    }
}

pub(crate) fn put_op(op: &Op<Global>, out: &mut Vec<u8>) -> Result<(), NoMemory>
    ensures { WritesText result out.old.items (operation_written (operation_of op.now)) out.new.items }
{
    write_op(op, out)
}

pub(crate) fn put_answer(answer: &Answer<Global>, out: &mut Vec<u8>) -> Result<(), NoMemory>
    ensures { WritesText result out.old.items (outcome_text (outcome_of answer.now)) out.new.items }
{
    write_answer(answer, out)
}
