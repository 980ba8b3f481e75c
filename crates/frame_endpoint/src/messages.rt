//! The messages that a replica sends, each with the reason for which it may.

ghost use Rattle.std.specs.Prelude.{◌≡◌, ◌≤◌, true, false, IfOk, IsTrue};
ghost use Rattle.tuple_codec.specs.OperationView.{outcome_of};
ghost use Rattle.wire_format.specs.Messages.{checkpoint, commit, fetch, meta, new_view, page, pre_prepare, prepare, view_change};
ghost use Rattle.wire_format.specs.Spelling.{IsBatch, IsMessage, IsNewView, IsViewChange, has_children, is_signed, last_index};
ghost use Rattle.wire_format.specs.Views.{message_data, new_view_data, view_change_data};
ghost use Rattle.frame_endpoint.specs.Endpoint.{FitsFrame};
ghost use Rattle.frame_endpoint.specs.Replies.{IsReplyTo};

use crate::digests::note_digests;
use std::alloc::Global;
use terms::{ClientId, Digest, Level, Mode, NoMemory, Number, Timestamp, View};
use tuple_codec::Answer;
use wire::{
    Batch, Checkpoint, Commit, Fetch, Message, Meta, NewView, Page, PrePrepare, Prepare, Reply,
    ViewChange,
};

/// The pre-prepare of a batch of 1 to 16 requests.
pub fn pre_prepare_message(view: View, number: Number, batch: Batch) -> Message
    requires { IsBatch 1 batch.text.items }
    ensures says { message_data result ≡ pre_prepare view.0 number.0 batch.text.items }
    ensures may { IsMessage (message_data result) }
    ensures unsigned { is_signed (message_data result) ≡ false }
    ensures fits { FitsFrame (message_data result) }
{
    Message::PrePrepare(PrePrepare {
        view,
        number,
        batch,
    })
}

/// The prepare of a batch's digest.
pub fn prepare_message(view: View, number: Number, digest: Digest) -> Message
    ensures says { message_data result ≡ prepare view.0 number.0 digest }
    ensures may { IsMessage (message_data result) }
    ensures unsigned { is_signed (message_data result) ≡ false }
    ensures fits { FitsFrame (message_data result) }
{
    Message::Prepare(Prepare {
        view,
        number,
        digest,
    })
}

/// The commit of a batch's digest.
pub fn commit_message(view: View, number: Number, digest: Digest) -> Message
    ensures says { message_data result ≡ commit view.0 number.0 digest }
    ensures may { IsMessage (message_data result) }
    ensures unsigned { is_signed (message_data result) ≡ false }
    ensures fits { FitsFrame (message_data result) }
{
    Message::Commit(Commit {
        view,
        number,
        digest,
    })
}

/// The checkpoint of a state, by its root.
pub fn checkpoint_message(number: Number, root: Digest) -> Message
    ensures says { message_data result ≡ checkpoint number.0 root }
    ensures may { IsMessage (message_data result) }
    ensures unsigned { is_signed (message_data result) ≡ false }
    ensures fits { FitsFrame (message_data result) }
{
    Message::Checkpoint(Checkpoint { number, root })
}

/// The reply to a client's request of this timestamp, executed in this mode on the state of this number.
pub fn reply_message(
    client: ClientId,
    timestamp: Timestamp,
    kind: Mode,
    number: Number,
    answer: Answer<Global>,
) -> Message
    ensures says { IsReplyTo client timestamp kind number (outcome_of answer) (message_data result) }
    ensures may { IsMessage (message_data result) }
    ensures unsigned { is_signed (message_data result) ≡ false }
    ensures fits { FitsFrame (message_data result) }
{
    answer.note_valid();
    Message::Reply(Reply {
        client,
        timestamp,
        kind,
        number,
        answer,
    })
}

/// The fetch of a part of the state of this number: index 0 at the root, up to 31 at an inner part and up to 1,023 at a
/// page.
pub fn fetch_message(number: Number, level: Level, index: u16) -> Message
    requires { index ≤ last_index level }
    ensures says { message_data result ≡ fetch number.0 level index }
    ensures may { IsMessage (message_data result) }
    ensures unsigned { is_signed (message_data result) ≡ false }
    ensures fits { FitsFrame (message_data result) }
{
    Message::Fetch(Fetch {
        number,
        level,
        index,
    })
}

/// The digests of the 32 children of a part of the state of this number: the index is 0 at the root, and up to 31 at an
/// inner part. NoMemory if memory runs out.
pub fn meta_message(
    alloc: Global,
    number: Number,
    level: Level,
    index: u16,
    digests: &[Digest; 32],
) -> Result<Message, NoMemory>
    requires part { IsTrue (has_children level) }
    requires index { index ≤ last_index level }
    ensures says { IfOk result (λ m. message_data m ≡ meta number.0 level index digests.now) }
    ensures may { IfOk result (λ m. IsMessage (message_data m)) }
    ensures unsigned { IfOk result (λ m. is_signed (message_data m) ≡ false) }
    ensures fits { IfOk result (λ m. FitsFrame (message_data m)) }
{
    note_digests(digests);
    let digests = Vec::from_slice(alloc, digests)?;
    Ok(Message::Meta(Meta {
        number,
        level,
        index,
        digests,
    }))
}

/// The text of a page, 0 to 1,023, of the state of this number.
pub fn page_message(number: Number, index: u16, text: Vec<u8>) -> Message
    requires { index ≤ 1023 }
    ensures says { message_data result ≡ page number.0 index text.items }
    ensures may { IsMessage (message_data result) }
    ensures unsigned { is_signed (message_data result) ≡ false }
{
    Message::Page(Page {
        number,
        index,
        text,
    })
}

/// The view change of a replica: at most three checkpoints and at most 65,535 batches in either list, each list
/// ascending.
pub fn view_change_message(change: ViewChange) -> Message
    requires { IsViewChange (view_change_data change) }
    ensures says { message_data result ≡ view_change (view_change_data change) }
    ensures may { IsMessage (message_data result) }
    ensures signed { is_signed (message_data result) ≡ true }
{
    Message::ViewChange(change)
}

/// The new view of a primary: it carries the frames of 1 to 10 view changes, ascending by their senders, and at most 32
/// batches.
pub fn new_view_message(new: NewView) -> Message
    requires { IsNewView (new_view_data new) }
    ensures says { message_data result ≡ new_view (new_view_data new) }
    ensures may { IsMessage (message_data result) }
    ensures signed { is_signed (message_data result) ≡ true }
{
    Message::NewView(new)
}
