//! The lengths of bodies and authenticators in bytes, so that each is written into one block of memory. Sums stop at
//! the greatest number, which no block of memory reaches.

ghost use Rattle.std.specs.Prelude.{◌≡◌, map};
ghost use Rattle.wire_format.specs.Lists.{each_spelling};
ghost use Rattle.wire_format.specs.Views.{batch_text, texts_of, macs_of};
ghost use Rattle.wire_format.specs.Spelling.{pieces_spelling, batches_spelling, authenticator_spelling};
ghost use Rattle.wire_format.specs.Texts.{checkpoint_entries_text, batch_entries_text, view_change_text, new_view_text};
ghost use Rattle.wire_format.specs.Texts.{fields_text, body_text, authenticator_text, capped_length};

use crate::frames::{Authenticator, ReceiverMac};
use crate::messages::{Batch, BatchEntry, Body, CheckpointEntry, Message, NewView, ViewChange};
use terms::Digest;

/// The length of the body, in bytes.
pub fn body_len(body: &Body) -> usize
    ensures { result ≡ capped_length (body_text body.now) }
{
    fields_len(&body.message).saturating_add(3)
}

/// The length of the authenticator, in bytes.
pub fn authenticator_len(authenticator: &Authenticator) -> usize
    ensures { result ≡ capped_length (authenticator_text authenticator.now) }
{
    match authenticator {
        Authenticator::Macs(macs) => macs_len(macs.as_slice()),
        Authenticator::Signature(signature) => signature.len().saturating_add(1),
    }
}

fn macs_len(receivers: &[ReceiverMac]) -> usize
    ensures { result ≡ capped_length (authenticator_spelling (macs_of receivers.now)) }
{
    let mut len: usize = 2;
    for mac in receivers {
        len = len
            .saturating_add(mac.mac.as_slice().len())
            .saturating_add(2);
    }
    len
}

fn fields_len(message: &Message) -> usize
    ensures { result ≡ capped_length (fields_text message.now) }
{
    match message {
        Message::Request(request) => 9 + request.op.encoded_len(),
        Message::PrePrepare(pre_prepare) => pre_prepare.batch.text.len().saturating_add(16),
        Message::Prepare(prepare) => prepare.digest.as_slice().len().saturating_add(16),
        Message::Commit(commit) => commit.digest.as_slice().len().saturating_add(16),
        Message::Checkpoint(checkpoint) => checkpoint.root.as_slice().len().saturating_add(8),
        Message::ViewChange(change) => view_change_len(change),
        Message::NewView(new_view) => new_view_len(new_view),
        Message::Reply(reply) => 19 + reply.answer.encoded_len(),
        Message::Fetch(_) => 11,
        Message::Meta(meta) => digests_len(&meta.digests).saturating_add(11),
        Message::Page(page) => page.text.len().saturating_add(10),
    }
}

fn view_change_len(change: &ViewChange) -> usize
    ensures { result ≡ capped_length (view_change_text change.now) }
{
    checkpoint_entries_len(&change.checkpoints)
        .saturating_add(batch_entries_len(&change.prepared))
        .saturating_add(batch_entries_len(&change.pre_prepared))
        .saturating_add(16)
}

fn checkpoint_entries_len(entries: &[CheckpointEntry]) -> usize
    ensures { result ≡ capped_length (checkpoint_entries_text entries.now) }
{
    let mut len: usize = 1;
    for entry in entries {
        len = len
            .saturating_add(entry.digest.as_slice().len())
            .saturating_add(8);
    }
    len
}

fn batch_entries_len(entries: &[BatchEntry]) -> usize
    ensures { result ≡ capped_length (batch_entries_text entries.now) }
{
    let mut len: usize = 2;
    for entry in entries {
        len = len
            .saturating_add(entry.digest.as_slice().len())
            .saturating_add(16);
    }
    len
}

fn digests_len(digests: &[Digest]) -> usize
    ensures { result ≡ capped_length (each_spelling (λ d. d) digests.now) }
{
    let mut len: usize = 0;
    for digest in digests {
        len = len.saturating_add(digest.as_slice().len());
    }
    len
}

fn new_view_len(new_view: &NewView) -> usize
    ensures { result ≡ capped_length (new_view_text new_view.now) }
{
    frames_len(&new_view.changes)
        .saturating_add(batches_len(&new_view.batches))
        .saturating_add(new_view.root.as_slice().len())
        .saturating_add(16)
}

/// The length of frames in a list: a count, and the length and the bytes of each.
pub fn frames_len(frames: &[Vec<u8>]) -> usize
    ensures { result ≡ capped_length (pieces_spelling (texts_of frames.now)) }
{
    let mut len: usize = 1;
    for frame in frames {
        len = len.saturating_add(frame.len()).saturating_add(4);
    }
    len
}

fn batches_len(batches: &[Batch]) -> usize
    ensures { result ≡ capped_length (batches_spelling (map batch_text batches.now)) }
{
    let mut len: usize = 1;
    for batch in batches {
        len = len.saturating_add(batch.text.len());
    }
    len
}
