//! From bodies to bytes.

ghost use Rattle.std.specs.Prelude.{◌≡◌, IfOk};
ghost use Rattle.wire_format.specs.Views.{message_data};
ghost use Rattle.wire_format.specs.declared.messages.Message.TheVariants as messages;
ghost use Rattle.wire_format.specs.Spelling.{message_type, vote_spelling};
ghost use Rattle.wire_format.specs.Counts.{CountsFit};
ghost use Rattle.wire_format.specs.Appends.{Appends};
ghost use Rattle.wire_format.specs.Texts.{fields_text, body_text};

use crate::messages::{Body, Checkpoint, Fetch, Message, Meta, Page, PrePrepare, Reply, Request};
use crate::put::{put_digests, put_level, put_mode, put_u16, put_u64};
use crate::put_lists::{put_new_view, put_view_change};
use crate::sizes::body_len;
use std::alloc::Global;
use terms::{Digest, FIRST_CLIENT, NoMemory, Number, View};
use tuple_codec::{encode_op, encode_result};

/// The bytes of the body, which MACs and signatures authenticate. Each list must be short enough for its count, as in
/// each body that a party may send.
///
/// # Errors
///
/// NoMemory if memory runs out.
pub fn encode(alloc: Global, body: &Body) -> Result<Vec<u8>, NoMemory>
    requires { CountsFit (message_data body.now.message) }
    ensures { IfOk result (λ bytes. bytes.items ≡ body_text body.now) }
{
    let mut out = Vec::with_capacity(alloc, body_len(body))?;
    put_body(body, &mut out)?;
    Ok(out)
}

/// Appends the bytes of the body. An `Err` may leave some of them.
pub fn put_body(body: &Body, out: &mut Vec<u8>) -> Result<(), NoMemory>
    requires { CountsFit (message_data body.now.message) }
    ensures { Appends (body_text body.now) out.old out.new result }
{
    out.push(type_byte(&body.message))?;
    put_u16(body.sender.number(), out)?;
    put_fields(&body.message, out)
}

fn type_byte(message: &Message) -> u8
    ensures { result ≡ message_type (message_data message.now) }
{
    match message {
        Message::Request(_) => 0x41,
        Message::PrePrepare(_) => 0x42,
        Message::Prepare(_) => 0x43,
        Message::Commit(_) => 0x44,
        Message::Checkpoint(_) => 0x45,
        Message::ViewChange(_) => 0x46,
        Message::NewView(_) => 0x47,
        Message::Reply(_) => 0x48,
        Message::Fetch(_) => 0x49,
        Message::Meta(_) => 0x4a,
        Message::Page(_) => 0x4b,
    }
}

fn put_fields(message: &Message, out: &mut Vec<u8>) -> Result<(), NoMemory>
    requires { CountsFit (message_data message.now) }
    ensures { Appends (fields_text message.now) out.old out.new result }
{
    match message {
        Message::Request(request) => put_request(request, out),
        Message::PrePrepare(pre_prepare) => put_pre_prepare(pre_prepare, out),
        Message::Prepare(prepare) => put_vote(prepare.view, prepare.number, &prepare.digest, out),
        Message::Commit(commit) => put_vote(commit.view, commit.number, &commit.digest, out),
        Message::Checkpoint(checkpoint) => put_checkpoint(checkpoint, out),
        Message::ViewChange(change) => put_view_change(change, out),
        Message::NewView(new_view) => put_new_view(new_view, out),
        Message::Reply(reply) => put_reply(reply, out),
        Message::Fetch(fetch) => put_fetch(fetch, out),
        Message::Meta(meta) => put_meta(meta, out),
        Message::Page(page) => put_page(page, out),
    }
}

fn put_request(request: &Request, out: &mut Vec<u8>) -> Result<(), NoMemory>
    ensures { Appends (fields_text (messages.Request request.now)) out.old out.new result }
{
    put_u64(request.timestamp.0, out)?;
    put_mode(request.mode, out)?;
    encode_op(&request.op, out)
}

fn put_pre_prepare(pre_prepare: &PrePrepare, out: &mut Vec<u8>) -> Result<(), NoMemory>
    ensures { Appends (fields_text (messages.PrePrepare pre_prepare.now)) out.old out.new result }
{
    put_u64(pre_prepare.view.0, out)?;
    put_u64(pre_prepare.number.0, out)?;
    Ok(out.extend_from_slice(&pre_prepare.batch.text)?)
}

fn put_vote(view: View, number: Number, digest: &Digest, out: &mut Vec<u8>) -> Result<(), NoMemory>
    ensures { Appends (vote_spelling view.0 number.0 digest.now) out.old out.new result }
{
    put_u64(view.0, out)?;
    put_u64(number.0, out)?;
    Ok(out.extend_from_slice(digest)?)
}

fn put_checkpoint(checkpoint: &Checkpoint, out: &mut Vec<u8>) -> Result<(), NoMemory>
    ensures { Appends (fields_text (messages.Checkpoint checkpoint.now)) out.old out.new result }
{
    put_u64(checkpoint.number.0, out)?;
    Ok(out.extend_from_slice(&checkpoint.root)?)
}

fn put_reply(reply: &Reply, out: &mut Vec<u8>) -> Result<(), NoMemory>
    ensures { Appends (fields_text (messages.Reply reply.now)) out.old out.new result }
{
    put_u16(FIRST_CLIENT + reply.client.number, out)?;
    put_u64(reply.timestamp.0, out)?;
    put_mode(reply.kind, out)?;
    put_u64(reply.number.0, out)?;
    encode_result(&reply.answer, out)
}

fn put_fetch(fetch: &Fetch, out: &mut Vec<u8>) -> Result<(), NoMemory>
    ensures { Appends (fields_text (messages.Fetch fetch.now)) out.old out.new result }
{
    put_u64(fetch.number.0, out)?;
    put_level(fetch.level, out)?;
    put_u16(fetch.index, out)
}

fn put_meta(meta: &Meta, out: &mut Vec<u8>) -> Result<(), NoMemory>
    ensures { Appends (fields_text (messages.Meta meta.now)) out.old out.new result }
{
    put_u64(meta.number.0, out)?;
    put_level(meta.level, out)?;
    put_u16(meta.index, out)?;
    put_digests(&meta.digests, out)
}

fn put_page(page: &Page, out: &mut Vec<u8>) -> Result<(), NoMemory>
    ensures { Appends (fields_text (messages.Page page.now)) out.old out.new result }
{
    put_u64(page.number.0, out)?;
    put_u16(page.index, out)?;
    Ok(out.extend_from_slice(&page.text)?)
}
