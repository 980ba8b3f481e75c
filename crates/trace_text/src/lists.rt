//! Lists that frames carry.

ghost use Rattle.std.specs.Prelude.{◌++◌};
ghost use Rattle.terms.specs.Parties.{party_number};
ghost use Rattle.tuple_text.specs.Written.{WritesText};
ghost use Rattle.wire_format.specs.Views.{message_data, batch_text};
ghost use Rattle.trace_text.specs.Frames.{call_by, call_text, calls_text, sender_text, batch_in_brackets};
ghost use Rattle.trace_text.specs.Shown.{calls_shown, time_text, receivers_shown, checkpoints_shown};
ghost use Rattle.trace_text.specs.Shown.{checkpoint_entry_shown, batch_entries_shown, batch_entry_shown};
ghost use Rattle.trace_text.specs.Shown.{senders_shown, batches_shown};

use crate::names::{Name, put_number, put_party, put_short};
use crate::putting::{append, put};
use std::alloc::Global;
use terms::{NoMemory, Party};
use wire::{Batch, BatchEntry, CheckpointEntry, Message, ReceiverMac, decode, judge, requests};

/// Appends the clients and timestamps of a batch's requests.
pub(crate) fn put_batch(alloc: Global, text: &[u8], out: &mut Vec<u8>) -> Result<(), NoMemory>
    ensures { WritesText result out.old.items (calls_text text.now) out.new.items }
{
    let requests = requests(text);
    put_calls(alloc, requests.as_slice(), out)
}

fn put_calls(alloc: Global, items: &[&[u8]], out: &mut Vec<u8>) -> Result<(), NoMemory>
    ensures { WritesText result out.old.items (calls_shown items.now) out.new.items }
{
    if items.is_empty() {
        return append(b"null", out);
    }
    let mut gap = "";
    for item in items {
        put_call(alloc, gap, item, out)?;
        gap = " ";
    }
    Ok(())
}

fn put_call(alloc: Global, gap: &str, frame: &[u8], out: &mut Vec<u8>) -> Result<(), NoMemory>
    ensures { WritesText result out.old.items (gap.now ++ call_text frame.now) out.new.items }
{
    append(gap.as_bytes(), out)?;
    match decode(alloc, frame) {
        Ok(frame) => put_call_by(alloc, frame.body.sender, &frame.body.message, out),
        Err(_) => Err(NoMemory),
    }
}

fn put_call_by(
    alloc: Global,
    sender: Party,
    message: &Message,
    out: &mut Vec<u8>,
) -> Result<(), NoMemory>
    ensures { WritesText result out.old.items (call_by (party_number sender) (message_data message.now)) out.new.items }
{
    match message {
        Message::Request(request) => put_time(alloc, sender, request.timestamp.0, out),
        _ => append(b"", out),
    }
}

fn put_time(alloc: Global, sender: Party, time: u64, out: &mut Vec<u8>) -> Result<(), NoMemory>
    ensures { WritesText result out.old.items (time_text sender time) out.new.items }
{
    let sender = Name(sender);
    put(format!(in alloc; "{sender}:{time}"), out)
}

pub(crate) fn put_receivers(
    alloc: Global,
    items: &[ReceiverMac],
    out: &mut Vec<u8>,
) -> Result<(), NoMemory>
    ensures { WritesText result out.old.items (receivers_shown items.now) out.new.items }
{
    if items.is_empty() {
        return append(b"all", out);
    }
    let mut gap = "";
    for item in items {
        put_party(alloc, gap, item.receiver, out)?;
        gap = ",";
    }
    Ok(())
}

pub(crate) fn put_checkpoints(
    alloc: Global,
    items: &[CheckpointEntry],
    out: &mut Vec<u8>,
) -> Result<(), NoMemory>
    ensures { WritesText result out.old.items (checkpoints_shown items.now) out.new.items }
{
    if items.is_empty() {
        return append(b"-", out);
    }
    let mut gap = "";
    for item in items {
        put_checkpoint(alloc, gap, item, out)?;
        gap = ",";
    }
    Ok(())
}

fn put_checkpoint(
    alloc: Global,
    gap: &str,
    entry: &CheckpointEntry,
    out: &mut Vec<u8>,
) -> Result<(), NoMemory>
    ensures { WritesText result out.old.items (gap.now ++ checkpoint_entry_shown entry.now) out.new.items }
{
    put_number(alloc, gap, entry.number.0, out)?;
    append(b":", out)?;
    put_short(alloc, &entry.digest, out)
}

pub(crate) fn put_entries(
    alloc: Global,
    items: &[BatchEntry],
    out: &mut Vec<u8>,
) -> Result<(), NoMemory>
    ensures { WritesText result out.old.items (batch_entries_shown items.now) out.new.items }
{
    if items.is_empty() {
        return append(b"-", out);
    }
    let mut gap = "";
    for item in items {
        put_entry(alloc, gap, item, out)?;
        gap = ",";
    }
    Ok(())
}

fn put_entry(
    alloc: Global,
    gap: &str,
    entry: &BatchEntry,
    out: &mut Vec<u8>,
) -> Result<(), NoMemory>
    ensures { WritesText result out.old.items (gap.now ++ batch_entry_shown entry.now) out.new.items }
{
    put_number(alloc, gap, entry.number.0, out)?;
    append(b":", out)?;
    put_short(alloc, &entry.digest, out)?;
    put_number(alloc, ":", entry.view.0, out)
}

/// Appends the senders of the frames.
pub(crate) fn put_senders(
    alloc: Global,
    items: &[Vec<u8>],
    out: &mut Vec<u8>,
) -> Result<(), NoMemory>
    ensures { WritesText result out.old.items (senders_shown items.now) out.new.items }
{
    if items.is_empty() {
        return append(b"-", out);
    }
    let mut gap = "";
    for item in items {
        put_sender(alloc, gap, item.as_slice(), out)?;
        gap = ",";
    }
    Ok(())
}

fn put_sender(alloc: Global, gap: &str, frame: &[u8], out: &mut Vec<u8>) -> Result<(), NoMemory>
    ensures { WritesText result out.old.items (gap.now ++ sender_text frame.now) out.new.items }
{
    match judge(frame) {
        Ok(header) => put_party(alloc, gap, header.sender, out),
        Err(_) => append(gap.as_bytes(), out),
    }
}

pub(crate) fn put_batches(alloc: Global, items: &[Batch], out: &mut Vec<u8>) -> Result<(), NoMemory>
    ensures { WritesText result out.old.items (batches_shown items.now) out.new.items }
{
    if items.is_empty() {
        return append(b"-", out);
    }
    let mut gap = "";
    for item in items {
        put_in_brackets(alloc, gap, item, out)?;
        gap = " ";
    }
    Ok(())
}

fn put_in_brackets(
    alloc: Global,
    gap: &str,
    batch: &Batch,
    out: &mut Vec<u8>,
) -> Result<(), NoMemory>
    ensures { WritesText result out.old.items (gap.now ++ batch_in_brackets (batch_text batch.now)) out.new.items }
{
    append(gap.as_bytes(), out)?;
    append(b"[", out)?;
    put_batch(alloc, batch.text.as_slice(), out)?;
    append(b"]", out)
}
