//! Frames as text.

ghost use Rattle.std.specs.Prelude.{◌++◌, codes, decimal};
ghost use Rattle.tuple_text.specs.Written.{WritesText};
ghost use Rattle.wire_format.specs.Views.{body_data};
ghost use Rattle.trace_text.specs.Frames.{sender_and_number, of_view, request_words, changed, new_view_words, part_text};
ghost use Rattle.trace_text.specs.Frames.{shown_body, shown_frame, receivers_text};
ghost use Rattle.trace_text.specs.Shown.{name_text, request_shown, pre_prepare_shown, vote_shown};
ghost use Rattle.trace_text.specs.Shown.{checkpoint_shown, view_change_shown, new_view_shown};
ghost use Rattle.trace_text.specs.Shown.{started_shown, replied_shown, reply_shown, page_shown};

use crate::lists::{
    put_batch, put_batches, put_checkpoints, put_entries, put_receivers, put_senders,
};
use crate::names::{Name, Place, mode_name, put_number, put_party, put_short};
use crate::putting::{append, put, put_answer, put_op};
use std::alloc::Global;
use terms::{Digest, Mode, NoMemory, Party};
use wire::{
    AuthenticatorBytes, Body, Checkpoint, Message, NewView, Page, PrePrepare, Reply, Request,
    ViewChange, WireFault, decode, judge,
};

/// Appends the text of the frame that these bytes spell.
pub(crate) fn put_frame(alloc: Global, bytes: &[u8], out: &mut Vec<u8>) -> Result<(), NoMemory>
    ensures { WritesText result out.old.items (shown_frame bytes.now) out.new.items }
{
    match decode(alloc, bytes) {
        Ok(frame) => put_body(alloc, &frame.body, out),
        Err(fault) => match fault {
            WireFault::NoMemory => Err(NoMemory),
            _ => put_len(alloc, bytes.len(), out),
        },
    }
}

// Appends the text for bytes that are no frame.
fn put_len(alloc: Global, len: usize, out: &mut Vec<u8>) -> Result<(), NoMemory>
    ensures { WritesText result out.old.items (decimal len ++ codes " bytes that are no frame") out.new.items }
{
    put(format!(in alloc; "{len} bytes that are no frame"), out)
}

/// Appends the receivers for whom the frame has a MAC; a signature is for all.
pub(crate) fn put_to(alloc: Global, bytes: &[u8], out: &mut Vec<u8>) -> Result<(), NoMemory>
    ensures { WritesText result out.old.items (receivers_text bytes.now) out.new.items }
{
    match judge(bytes) {
        Ok(header) => match &header.authenticator {
            AuthenticatorBytes::Macs(macs) => put_receivers(alloc, macs.copied().as_slice(), out),
            AuthenticatorBytes::Signature(_) => append(b"all", out),
        },
        Err(_) => append(b"all", out),
    }
}

fn put_body(alloc: Global, body: &Body, out: &mut Vec<u8>) -> Result<(), NoMemory>
    ensures { WritesText result out.old.items (shown_body (body_data body.now)) out.new.items }
{
    let sender = body.sender;
    match &body.message {
        Message::Request(m) => put_request(alloc, sender, m, out),
        Message::PrePrepare(m) => put_pre_prepare(alloc, sender, m, out),
        Message::Prepare(m) => put_vote(
            alloc, "prepare", sender, m.view.0, m.number.0, &m.digest, out,
        ),
        Message::Commit(m) => put_vote(
            alloc, "commit", sender, m.view.0, m.number.0, &m.digest, out,
        ),
        Message::Checkpoint(m) => put_checkpoint(alloc, sender, m, out),
        Message::ViewChange(m) => put_view_change(alloc, sender, m, out),
        Message::NewView(m) => put_new_view(alloc, sender, m, out),
        Message::Reply(m) => put_reply(alloc, sender, m, out),
        Message::Fetch(m) => put_part(
            alloc,
            "fetch",
            sender,
            m.number.0,
            Place {
                level: m.level,
                index: m.index,
            },
            out,
        ),
        Message::Meta(m) => put_part(
            alloc,
            "meta",
            sender,
            m.number.0,
            Place {
                level: m.level,
                index: m.index,
            },
            out,
        ),
        Message::Page(m) => put_page(alloc, sender, m, out),
    }
}

fn put_request(
    alloc: Global,
    sender: Party,
    request: &Request,
    out: &mut Vec<u8>,
) -> Result<(), NoMemory>
    ensures { WritesText result out.old.items (request_shown sender request.now) out.new.items }
{
    put_asked(alloc, sender, request.timestamp.0, request.mode, out)?;
    put_op(&request.op, out)
}

fn put_asked(
    alloc: Global,
    sender: Party,
    time: u64,
    mode: Mode,
    out: &mut Vec<u8>,
) -> Result<(), NoMemory>
    ensures { WritesText result out.old.items (request_words (name_text sender) time mode) out.new.items }
{
    let (sender, mode) = (Name(sender), mode_name(mode));
    put(
        format!(in alloc; "request {sender} time {time} {mode} "),
        out,
    )
}

fn put_pre_prepare(
    alloc: Global,
    sender: Party,
    m: &PrePrepare,
    out: &mut Vec<u8>,
) -> Result<(), NoMemory>
    ensures { WritesText result out.old.items (pre_prepare_shown sender m.now) out.new.items }
{
    put_of_view(alloc, "pre-prepare", sender, m.view.0, m.number.0, out)?;
    put_batch(alloc, m.batch.text.as_slice(), out)
}

// A prepare or a commit.
fn put_vote(
    alloc: Global,
    word: &str,
    sender: Party,
    view: u64,
    number: u64,
    digest: &Digest,
    out: &mut Vec<u8>,
) -> Result<(), NoMemory>
    ensures { WritesText result out.old.items (vote_shown word.now sender view number digest.now) out.new.items }
{
    put_of_view(alloc, word, sender, view, number, out)?;
    append(b"digest ", out)?;
    put_short(alloc, digest, out)
}

fn put_of_view(
    alloc: Global,
    word: &str,
    sender: Party,
    view: u64,
    number: u64,
    out: &mut Vec<u8>,
) -> Result<(), NoMemory>
    ensures { WritesText result out.old.items (of_view word.now (name_text sender) view number) out.new.items }
{
    let sender = Name(sender);
    put(
        format!(in alloc; "{word} {sender} view {view} number {number} "),
        out,
    )
}

fn put_checkpoint(
    alloc: Global,
    sender: Party,
    m: &Checkpoint,
    out: &mut Vec<u8>,
) -> Result<(), NoMemory>
    ensures { WritesText result out.old.items (checkpoint_shown sender m.now) out.new.items }
{
    put_of_number(alloc, "checkpoint", sender, m.number.0, out)?;
    append(b"root ", out)?;
    put_short(alloc, &m.root, out)
}

fn put_of_number(
    alloc: Global,
    word: &str,
    sender: Party,
    number: u64,
    out: &mut Vec<u8>,
) -> Result<(), NoMemory>
    ensures { WritesText result out.old.items (sender_and_number word.now (name_text sender) number) out.new.items }
{
    let sender = Name(sender);
    put(format!(in alloc; "{word} {sender} number {number} "), out)
}

fn put_view_change(
    alloc: Global,
    sender: Party,
    change: &ViewChange,
    out: &mut Vec<u8>,
) -> Result<(), NoMemory>
    ensures { WritesText result out.old.items (view_change_shown sender change.now) out.new.items }
{
    put_changed(alloc, sender, change.view.0, change.low.0, out)?;
    put_checkpoints(alloc, change.checkpoints.as_slice(), out)?;
    append(b" prepared ", out)?;
    put_entries(alloc, change.prepared.as_slice(), out)?;
    append(b" pre-prepared ", out)?;
    put_entries(alloc, change.pre_prepared.as_slice(), out)
}

fn put_changed(
    alloc: Global,
    sender: Party,
    view: u64,
    low: u64,
    out: &mut Vec<u8>,
) -> Result<(), NoMemory>
    ensures { WritesText result out.old.items (changed (name_text sender) view low) out.new.items }
{
    put_party(alloc, "view-change ", sender, out)?;
    put_number(alloc, " view ", view, out)?;
    put_number(alloc, " low ", low, out)?;
    append(b" checkpoints ", out)
}

fn put_new_view(
    alloc: Global,
    sender: Party,
    new: &NewView,
    out: &mut Vec<u8>,
) -> Result<(), NoMemory>
    ensures { WritesText result out.old.items (new_view_shown sender new.now) out.new.items }
{
    put_started(alloc, sender, new, out)?;
    put_short(alloc, &new.root, out)?;
    append(b" batches ", out)?;
    put_batches(alloc, new.batches.as_slice(), out)
}

// The words before the root. One function for all seven parts takes the prover three times as long.
fn put_started(
    alloc: Global,
    sender: Party,
    new: &NewView,
    out: &mut Vec<u8>,
) -> Result<(), NoMemory>
    ensures { WritesText result out.old.items (started_shown sender new.now) out.new.items }
{
    put_opened(alloc, sender, new.view.0, out)?;
    put_senders(alloc, new.changes.as_slice(), out)?;
    put_number(alloc, " start ", new.start.0, out)?;
    append(b" root ", out)
}

fn put_opened(alloc: Global, sender: Party, view: u64, out: &mut Vec<u8>) -> Result<(), NoMemory>
    ensures { WritesText result out.old.items (new_view_words (name_text sender) view) out.new.items }
{
    let sender = Name(sender);
    put(
        format!(in alloc; "new-view {sender} view {view} changes "),
        out,
    )
}

fn put_reply(alloc: Global, sender: Party, reply: &Reply, out: &mut Vec<u8>) -> Result<(), NoMemory>
    ensures { WritesText result out.old.items (reply_shown sender reply.now) out.new.items }
{
    put_replied(alloc, sender, reply, out)?;
    put_answer(&reply.answer, out)
}

fn put_replied(
    alloc: Global,
    sender: Party,
    reply: &Reply,
    out: &mut Vec<u8>,
) -> Result<(), NoMemory>
    ensures { WritesText result out.old.items (replied_shown sender reply.now) out.new.items }
{
    put_party(alloc, "reply ", sender, out)?;
    put_party(alloc, " client ", Party::Client(reply.client), out)?;
    put_number(alloc, " time ", reply.timestamp.0, out)?;
    append(b" ", out)?;
    append(mode_name(reply.kind).as_bytes(), out)?;
    put_number(alloc, " number ", reply.number.0, out)?;
    append(b" ", out)
}

// A fetch or a meta.
fn put_part(
    alloc: Global,
    word: &str,
    sender: Party,
    number: u64,
    place: Place,
    out: &mut Vec<u8>,
) -> Result<(), NoMemory>
    ensures { WritesText result out.old.items (part_text word.now (name_text sender) number place.level place.index)
        out.new.items }
{
    let sender = Name(sender);
    put(
        format!(in alloc; "{word} {sender} number {number} {place}"),
        out,
    )
}

fn put_page(alloc: Global, sender: Party, m: &Page, out: &mut Vec<u8>) -> Result<(), NoMemory>
    ensures { WritesText result out.old.items (page_shown sender m.now) out.new.items }
{
    let (sender, number) = (Name(sender), m.number.0);
    let (index, len) = (m.index, m.text.len());
    put(
        format!(in alloc; "page {sender} number {number} page {index} bytes {len}"),
        out,
    )
}
