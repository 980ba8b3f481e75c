//! The messages of the protocol (Castro and Liskov, Practical Byzantine fault tolerance and proactive recovery, TOCS
//! 2002, on the client, normal-case operation, garbage collection, view changes and checkpoint management). A message
//! carries other frames as their bytes.

ghost use Rattle.std.specs.Prelude.{◌≡◌};
ghost use Rattle.wire_format.specs.Views.{message_data};
ghost use Rattle.wire_format.specs.Spelling as Spelling;

use std::alloc::Global;
use terms::{ClientId, Digest, Level, Mode, Number, Party, Timestamp, View};
use tuple_codec::{Answer, Op};

/// A client asks for an operation.
#[derive(Drop)]
pub struct Request {
    pub timestamp: Timestamp,
    pub mode: Mode,
    pub op: Op<Global>,
}

/// The text of up to 16 ordered requests that get one number: a count, and then the length and the whole frame of
/// each request.
#[derive(Drop)]
pub struct Batch {
    pub text: Vec<u8>,
}

/// The primary of a view gives a number to a batch of 1 to 16 requests.
#[derive(Drop)]
pub struct PrePrepare {
    pub view: View,
    pub number: Number,
    pub batch: Batch,
}

/// A backup has taken a pre-prepare. The digest is that of the batch's text.
#[derive(Drop)]
pub struct Prepare {
    pub view: View,
    pub number: Number,
    pub digest: Digest,
}

/// A replica has a batch prepared. The digest is that of the batch's text.
#[derive(Drop)]
pub struct Commit {
    pub view: View,
    pub number: Number,
    pub digest: Digest,
}

/// A replica's state after executing a number has this root.
#[derive(Drop)]
pub struct Checkpoint {
    pub number: Number,
    pub root: Digest,
}

/// A checkpoint in a view change, by the root of its state.
#[derive(Clone, Copy, Drop)]
pub struct CheckpointEntry {
    pub number: Number,
    pub digest: Digest,
}

impl Default for CheckpointEntry {
    fn default() -> CheckpointEntry {
        CheckpointEntry {
            number: Number(0),
            digest: [0; 32],
        }
    }
}

/// A batch in a view change.
#[derive(Clone, Copy, Drop)]
pub struct BatchEntry {
    pub number: Number,
    /// The digest of the batch's text.
    pub digest: Digest,
    /// The latest view in which the sender had the batch at that number.
    pub view: View,
}

/// A replica moves to a new view.
#[derive(Drop)]
pub struct ViewChange {
    pub view: View,
    /// The low mark.
    pub low: Number,
    /// At most 3, ascending by number.
    pub checkpoints: Vec<CheckpointEntry>,
    /// At most 65,535, ascending by number.
    pub prepared: Vec<BatchEntry>,
    /// At most 65,535, ascending by number and then by digest.
    pub pre_prepared: Vec<BatchEntry>,
}

/// The primary of a view starts it.
#[derive(Drop)]
pub struct NewView {
    pub view: View,
    /// 1 to 10 whole frames of view changes, their senders ascending.
    pub changes: Vec<Vec<u8>>,
    /// The number of the checkpoint that the view starts from.
    pub start: Number,
    /// The root of that checkpoint's state.
    pub root: Digest,
    /// Up to 32, for the numbers from `start` plus 1 on, each of 0 to 16 requests.
    pub batches: Vec<Batch>,
}

/// A replica answers a client's request.
#[derive(Drop)]
pub struct Reply {
    /// The client that made the request.
    pub client: ClientId,
    /// The timestamp of the request.
    pub timestamp: Timestamp,
    /// The mode in which the replica answered the request.
    pub kind: Mode,
    /// The number of the state that gave the answer.
    pub number: Number,
    pub answer: Answer<Global>,
}

/// A replica asks for a part of a state.
#[derive(Drop)]
pub struct Fetch {
    /// The number of the state.
    pub number: Number,
    /// The kind of part: at the root and at an inner part the fetch asks for the digests of the children, at a page
    /// for its text.
    pub level: Level,
    /// 0 at the root, up to 31 at an inner part and up to 1,023 at a page.
    pub index: u16,
}

/// The digests of a part's 32 children, at the root or at an inner part.
#[derive(Drop)]
pub struct Meta {
    pub number: Number,
    pub level: Level,
    pub index: u16,
    pub digests: Vec<Digest>,
}

/// The text of a page, 0 to 1,023.
#[derive(Drop)]
pub struct Page {
    pub number: Number,
    pub index: u16,
    pub text: Vec<u8>,
}

/// A message of the protocol, by its type.
#[derive(Drop)]
pub enum Message {
    Request(Request),
    PrePrepare(PrePrepare),
    Prepare(Prepare),
    Commit(Commit),
    Checkpoint(Checkpoint),
    ViewChange(ViewChange),
    NewView(NewView),
    Reply(Reply),
    Fetch(Fetch),
    Meta(Meta),
    Page(Page),
}

impl Message {
    /// Whether a signature proves frames of this message, and not MACs: those of view changes and new views.
    pub fn is_signed(&self) -> bool
        ensures { result ≡ Spelling.is_signed (message_data self.now) }
    {
        match self {
            Message::ViewChange(_) | Message::NewView(_) => true,
            _ => false,
        }
    }
}

/// A sender and its message. The authenticator of a frame proves the body's bytes.
#[derive(Drop)]
pub struct Body {
    pub sender: Party,
    pub message: Message,
}
