//! Entries of traces and histories.

ghost use Rattle.std.specs.Prelude.{◌≡◌, IfOk};
ghost use Rattle.events.specs.EntryView.{entry_of_kind};

use crate::shared_bytes::SharedBytes;
use std::alloc::Global;
use std::marker::Model;
use std::sync::Arc;
use terms::{ClientId, Digest, NoMemory, Number, Party, ReplicaId, Timestamp};
use tuple_codec::{Answer, Op};

/// What happened at a party. A history has many entries and keeps them all, so large parts lie in memory once and
/// is shared.
#[derive(Drop)]
pub enum EntryKind {
    /// A client calls an operation.
    Invoke(ClientId, Timestamp, Arc<Op<Global>>),
    /// The party received these bytes.
    Got(Party, SharedBytes),
    /// A timeout of the party.
    Tick(Party),
    /// A replica executed the batch of this text at the number.
    Executed(ReplicaId, Number, SharedBytes),
    /// A replica installed the state of this number and root.
    Installed(ReplicaId, Number, Arc<Digest>),
    /// The party sent this frame.
    Sent(Party, SharedBytes),
    /// A client accepted the answer to its call of this timestamp.
    Accepted(ClientId, Timestamp, Arc<Answer<Global>>),
}

/// An entry of a trace.
#[derive(Drop)]
pub struct Entry {
    kind: EntryKind,
}

impl Model for Entry {
    ghost use Rattle.protocol.specs.System.Trace.{Entry as TraceEntry};
    ghost use Rattle.events.specs.Codes.{entry_code};
    ghost use Rattle.events.specs.EntryView.{entry_of_kind};

    ghost Value = { TraceEntry };

    ghost coded = { entry_code };

    ghost view = { λ e. entry_of_kind e.kind };
}

impl Entry {
    /// An entry of this kind.
    pub fn new(kind: EntryKind) -> Entry
        ensures says { result ≡ entry_of_kind kind }
    {
        Entry { kind }
    }

    /// The kind of the entry.
    pub fn kind(&self) -> &EntryKind
        ensures says { entry_of_kind result.now ≡ self.now }
    {
        &self.kind
    }
    /// An equal entry, which shares what this one has. Nothing is copied, and no memory is taken. NoMemory only if
    /// something has more owners than can be counted.
    pub fn share(&self) -> Result<Entry, NoMemory>
        ensures { IfOk result (λ entry. entry ≡ self.now) }
    {
        Ok(Entry::new(share_kind(&self.kind)?))
    }
}

fn share_kind(kind: &EntryKind) -> Result<EntryKind, NoMemory>
    ensures { IfOk result (λ shared. entry_of_kind shared ≡ entry_of_kind kind.now) }
{
    match kind {
        EntryKind::Invoke(client, timestamp, op) => {
            Ok(EntryKind::Invoke(*client, *timestamp, op.clone()?))
        }
        EntryKind::Got(party, bytes) => Ok(EntryKind::Got(*party, bytes.share()?)),
        EntryKind::Tick(party) => Ok(EntryKind::Tick(*party)),
        EntryKind::Executed(replica, number, batch) => {
            Ok(EntryKind::Executed(*replica, *number, batch.share()?))
        }
        EntryKind::Installed(replica, number, root) => {
            Ok(EntryKind::Installed(*replica, *number, root.clone()?))
        }
        EntryKind::Sent(party, bytes) => Ok(EntryKind::Sent(*party, bytes.share()?)),
        EntryKind::Accepted(client, timestamp, answer) => {
            Ok(EntryKind::Accepted(*client, *timestamp, answer.clone()?))
        }
    }
}
