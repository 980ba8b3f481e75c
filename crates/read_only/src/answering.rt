//! Answers to reads.

ghost use Rattle.std.specs.Prelude.{◌≡◌, ◌↔◌, IfOk, MatchResult};
ghost use Rattle.tuple_codec.specs.OperationView.{outcome_of};
ghost use Rattle.tuple_codec.specs.Spelling.{SpellsSomeOperation};
ghost use Rattle.wire_format.specs.Spelling.{IsMessage};
ghost use Rattle.read_only.specs.Answering.{RepliesToRead, AnswersText, SpellsNoRead, SpellsRead, begins_as_read, read_reply, reply_data};

use crate::read_fault::ReadFault;
use crate::receiving::ReadRequest;
use bumpalo::Bump;
use space::Space;
use std::alloc::Global;
use terms::{ClientId, Mode, Number, Timestamp};
use tuple_codec::{Answer, decode_judged_op};
use wire::Reply;

/// The executed state that answers reads: its tuples, and its number.
#[derive(Clone, Copy, Drop)]
pub struct Shelf<'a> {
    pub space: &'a Space,
    pub number: Number,
}

/// The reply to a read, from the shelf. The operation is decoded in the arena, and dropped before this returns; the
/// reply is in ordinary memory.
///
/// # Errors
///
/// NotReadOnly if the operation is no read; that takes no memory. NoMemory if memory runs out.
pub fn answer(
    alloc: Global,
    shelf: &Shelf<'_>,
    request: &ReadRequest<'_>,
    arena: &mut Bump,
) -> Result<Reply, ReadFault>
    requires spelled { SpellsSomeOperation request.now.op.now }
    ensures answer { IfOk result (RepliesToRead shelf.now request.now) }
    ensures may { IfOk result (λ reply. IsMessage (reply_data reply)) }
    ensures not_read_only { (result ≡ Err ReadFault.NotReadOnly) ↔ SpellsNoRead request.now.op.now }
    ensures memory { (result ≡ Err ReadFault.NoMemory) → SpellsRead request.now.op.now }
{
    if !is_read(request.op) {
        return Err(ReadFault::NotReadOnly);
    }
    let answered = peek(shelf.space, request.op, arena);
    // The operation is gone, and its memory is free again. If something of a caller's is left in the arena, a new
    // arena replaces it.
    if arena.reset().is_err() {
        *arena = Bump::new(alloc);
    }
    let answer = answered?;
    Ok(reply_of(request.client, request.timestamp, shelf.number, answer))
}

// The reply to a client's read-only request with this timestamp, from the state of this number.
fn reply_of(client: ClientId, timestamp: Timestamp, number: Number, answer: Answer<Global>) -> Reply
    ensures says { reply_data result
        ≡ read_reply client.number timestamp.0 number.0 (outcome_of answer) }
    ensures may { IsMessage (reply_data result) }
{
    answer.note_valid();
    Reply {
        client,
        timestamp,
        kind: Mode::ReadOnly,
        number,
        answer,
    }
}

// Whether the operation that the text spells is a read, by its first byte.
fn is_read(text: &[u8]) -> bool
    ensures { result ≡ begins_as_read text.now }
{
    match text {
        [0x22 | 0x25, ..] => true,
        _ => false,
    }
}

// The answer of the space to the read that the text spells.
fn peek(space: &Space, text: &[u8], arena: &Bump) -> Result<Answer<Global>, ReadFault>
    requires { SpellsRead text.now }
    ensures { MatchResult result (AnswersText space.now text.now) (λ e. e ≡ ReadFault.NoMemory) }
{
    let Ok(op) = decode_judged_op(arena, text) else {
        return Err(ReadFault::NoMemory);
    };
    Ok(space.peek(&op)?)
}
