//! The texts of pages, and back.

ghost use Rattle.std.specs.Prelude.{◌≡◌, ◌++◌, Option, IfOk, OnOk, IsTrue};
ghost use Rattle.tuple_codec.specs.Results.{ReturnsEach};
ghost use Rattle.tuple_codec.specs.OperationView.{outcome_of};
ghost use Rattle.tuple_codec.specs.Spelling.{SpellsOutcome};
ghost use Rattle.reply_cache.specs.Replies.{Kept};
ghost use Rattle.reply_cache.specs.ReplyView.{kept_of_reply, kept_if_any};
ghost use Rattle.reply_cache.specs.Pages.{kept_text};
ghost use Rattle.reply_cache.specs.Reading.{SpellsReply};

use crate::cache::Reply;
use byteorder::{BigEndian, ByteOrder};
use std::alloc::Global;
use terms::NoMemory;
use tuple_codec::{Answer, Bad, decode_result, encode_result, is_result};

// The number of bytes before the answer.
const NUMBERS_LEN: usize = 16;

/// Appends the text of a reply.
pub fn put_reply(reply: &Reply, out: &mut Vec<u8>) -> Result<(), NoMemory>
    ensures { OnOk result (out.new.items ≡ out.old.items ++ kept_text (kept_of_reply reply.now)) }
{
    out.extend_from_slice(&reply.timestamp.to_be_bytes())?;
    out.extend_from_slice(&reply.number.to_be_bytes())?;
    encode_result(&reply.answer, out)
}

// The answer that bytes spell as a whole.
fn read_answer(alloc: Global, bytes: &[u8]) -> Result<Answer<Global>, Bad>
    ensures found { IfOk result (λ a. SpellsOutcome bytes.now (outcome_of a)) }
    ensures only { ReturnsEach Bad.NoMemory outcome_of (SpellsOutcome bytes.now) result }
{
    match decode_result(alloc, bytes) {
        Ok((answer, len)) => {
            if len < bytes.len() {
                return Err(Bad::Malformed);
            }
            Ok(answer)
        }
        Err(bad) => Err(bad),
    }
}

/// Whether a text is that of a page. Takes no memory.
pub fn is_page(text: &[u8]) -> bool
    ensures found { IsTrue result → (o : Option Kept) × SpellsReply text.now o }
    ensures only { (o : Option Kept) → SpellsReply text.now o → IsTrue result }
{
    if text.is_empty() {
        return true;
    }
    if text.len() < NUMBERS_LEN {
        return false;
    }
    if BigEndian::read_u64(text) == 0 {
        return false;
    }
    is_result(text.split_at(NUMBERS_LEN).1)
}

/// The reply that a page's text spells.
pub fn read_reply(alloc: Global, text: &[u8]) -> Result<Option<Reply>, Bad>
    ensures found { IfOk result (λ r. SpellsReply text.now (kept_if_any r)) }
    ensures only { ReturnsEach Bad.NoMemory kept_if_any (SpellsReply text.now) result }
{
    if text.is_empty() {
        return Ok(None);
    }
    if text.len() < NUMBERS_LEN {
        return Err(Bad::Malformed);
    }
    let timestamp = BigEndian::read_u64(text);
    let number = BigEndian::read_u64(text.split_at(8).1);
    if timestamp == 0 {
        return Err(Bad::Malformed);
    }
    match read_answer(alloc, text.split_at(NUMBERS_LEN).1) {
        Ok(answer) => Ok(Some(Reply {
            timestamp,
            number,
            answer,
        })),
        Err(bad) => Err(bad),
    }
}
