//! Entries, compared and copied.

ghost use Rattle.std.specs.Prelude.{◌≡◌, ◌↔◌, ◌++◌, ◌∷◌, [], IfOk, OnOk, OnErr, IsTrue};
ghost use Rattle.std.specs.List.{list_any};
ghost use Rattle.terms.specs.Parties.{party_number};
ghost use Rattle.tuple_codec.specs.OperationView.{operation_of, outcome_of};
ghost use Rattle.protocol.specs.System.Trace.{party_of};
ghost use Rattle.protocol.specs.System.Trace.Entry.{Invoke, Got, Tick, Executed, Installed, Sent, Accepted};
ghost use Rattle.events.specs.EntryView.{entry_of_kind};
ghost use Rattle.wire.specs.Marks.{asks_read, answers_read};
ghost use Rattle.protocol.specs.System.Reads.{is_beside, orders, without_reads};

use events::{Entry, EntryKind};
use std::alloc::Global;
use terms::{ClientId, Digest, NoMemory, Number, Party, ReplicaId, Timestamp};
use tuple_codec::{Answer, Op};

/// The number of the party whose entry it is.
pub(crate) fn party_of(entry: &Entry) -> u16
    ensures { result ≡ party_of entry.now }
{
    party_of_kind(entry.kind())
}

fn party_of_kind(kind: &EntryKind) -> u16
    ensures { result ≡ party_of (entry_of_kind kind.now) }
{
    match kind {
        EntryKind::Invoke(client, _, _) => Party::Client(*client).number(),
        EntryKind::Got(party, _) => party.number(),
        EntryKind::Tick(party) => party.number(),
        EntryKind::Executed(replica, _, _) => u16::from(replica.0),
        EntryKind::Installed(replica, _, _) => u16::from(replica.0),
        EntryKind::Sent(party, _) => party.number(),
        EntryKind::Accepted(client, _, _) => Party::Client(*client).number(),
    }
}

/// Whether the entry is one of ordering, and not of a read.
pub(crate) fn orders(entry: &Entry) -> bool
    ensures { result ≡ orders entry.now }
{
    !is_beside(entry.kind())
}

fn is_beside(kind: &EntryKind) -> bool
    ensures { result ≡ is_beside (entry_of_kind kind.now) }
{
    match kind {
        EntryKind::Got(_, bytes) => asks_read(bytes.as_slice()),
        EntryKind::Sent(_, bytes) => answers_read(bytes.as_slice()),
        _ => false,
    }
}

fn asks_read(bytes: &[u8]) -> bool
    ensures { result ≡ asks_read bytes.now }
{
    bytes.len() > 15 && bytes[4] == 0x41 && bytes[15] == 0x01
}

fn answers_read(bytes: &[u8]) -> bool
    ensures { result ≡ answers_read bytes.now }
{
    bytes.len() > 17 && bytes[4] == 0x48 && bytes[17] == 0x01
}

/// Whether one of them is an entry of ordering.
pub(crate) fn have_ordering(entries: &[Entry]) -> bool
    ensures { result ≡ list_any orders entries.now }
{
    entries.iter().any(|entry| orders(entry))
}

/// Appends equal entries, which share what these have, or none if memory runs out.
pub(crate) fn add_shared(copies: &mut Vec<Entry>, entries: &[Entry]) -> Result<(), NoMemory>
    ensures added { OnOk result (copies.new.items ≡ copies.old.items ++ entries.now) }
    ensures none { OnErr result (copies.new.items ≡ copies.old.items) }
{
    let before = copies.len();
    for entry in entries {
        if add_one(copies, entry).is_err() {
            copies.truncate(before);
            return Err(NoMemory);
        }
    }
    Ok(())
}

/// The same for the entries of ordering among them.
pub(crate) fn add_ordering(copies: &mut Vec<Entry>, entries: &[Entry]) -> Result<(), NoMemory>
    ensures added { OnOk result (copies.new.items ≡ copies.old.items ++ without_reads entries.now) }
    ensures none { OnErr result (copies.new.items ≡ copies.old.items) }
{
    let before = copies.len();
    for entry in entries {
        if orders(entry) && add_one(copies, entry).is_err() {
            copies.truncate(before);
            return Err(NoMemory);
        }
    }
    Ok(())
}

fn add_one(copies: &mut Vec<Entry>, entry: &Entry) -> Result<(), NoMemory>
    ensures added { OnOk result (copies.new.items ≡ copies.old.items ++ entry.now ∷ []) }
    ensures none { OnErr result (copies.new.items ≡ copies.old.items) }
{
    let entry = entry.share()?;
    copies.push(entry)?;
    Ok(())
}

/// Whether the entries are equal.
pub(crate) fn is_same(entry: &Entry, other: &Entry) -> bool
    ensures { IsTrue result ↔ (entry.now ≡ other.now) }
{
    is_same_kind(entry.kind(), other.kind())
}

fn is_same_kind(kind: &EntryKind, other: &EntryKind) -> bool
    ensures { IsTrue result ↔ (entry_of_kind kind.now ≡ entry_of_kind other.now) }
{
    match kind {
        EntryKind::Invoke(client, timestamp, op) => is_invoke(other, *client, *timestamp, op),
        EntryKind::Got(party, bytes) => is_got(other, *party, bytes.as_slice()),
        EntryKind::Tick(party) => is_tick(other, *party),
        EntryKind::Executed(replica, number, batch) => {
            is_executed(other, *replica, *number, batch.as_slice())
        }
        EntryKind::Installed(replica, number, root) => is_installed(other, *replica, *number, root),
        EntryKind::Sent(party, bytes) => is_sent(other, *party, bytes.as_slice()),
        EntryKind::Accepted(client, timestamp, answer) => {
            is_accepted(other, *client, *timestamp, answer)
        }
    }
}

fn is_invoke(kind: &EntryKind, client: ClientId, timestamp: Timestamp, op: &Op<Global>) -> bool
    ensures { IsTrue result ↔ (Invoke client.number timestamp.0 (operation_of op.now) ≡ entry_of_kind kind.now) }
{
    match kind {
        EntryKind::Invoke(other, time, told) => {
            client.number == other.number && timestamp.0 == time.0 && op.same(told)
        }
        _ => false,
    }
}

fn is_got(kind: &EntryKind, party: Party, bytes: &[u8]) -> bool
    ensures { IsTrue result ↔ (Got (party_number party) bytes.now ≡ entry_of_kind kind.now) }
{
    match kind {
        EntryKind::Got(other, text) => {
            party.number() == other.number() && are_same_bytes(bytes, text.as_slice())
        }
        _ => false,
    }
}

fn is_tick(kind: &EntryKind, party: Party) -> bool
    ensures { IsTrue result ↔ (Tick (party_number party) ≡ entry_of_kind kind.now) }
{
    match kind {
        EntryKind::Tick(other) => party.number() == other.number(),
        _ => false,
    }
}

fn is_executed(kind: &EntryKind, replica: ReplicaId, number: Number, batch: &[u8]) -> bool
    ensures { IsTrue result ↔ (Executed replica.0 number.0 batch.now ≡ entry_of_kind kind.now) }
{
    match kind {
        EntryKind::Executed(other, count, text) => {
            replica.0 == other.0 && number.0 == count.0 && are_same_bytes(batch, text.as_slice())
        }
        _ => false,
    }
}

fn is_installed(kind: &EntryKind, replica: ReplicaId, number: Number, root: &Digest) -> bool
    ensures { IsTrue result ↔ (Installed replica.0 number.0 root.now ≡ entry_of_kind kind.now) }
{
    match kind {
        EntryKind::Installed(other, count, digest) => {
            replica.0 == other.0 && number.0 == count.0 && are_same_bytes(root, &**digest)
        }
        _ => false,
    }
}

fn is_sent(kind: &EntryKind, party: Party, bytes: &[u8]) -> bool
    ensures { IsTrue result ↔ (Sent (party_number party) bytes.now ≡ entry_of_kind kind.now) }
{
    match kind {
        EntryKind::Sent(other, text) => {
            party.number() == other.number() && are_same_bytes(bytes, text.as_slice())
        }
        _ => false,
    }
}

fn is_accepted(
    kind: &EntryKind,
    client: ClientId,
    timestamp: Timestamp,
    answer: &Answer<Global>,
) -> bool
    ensures { IsTrue result ↔ (Accepted client.number timestamp.0 (outcome_of answer.now) ≡ entry_of_kind kind.now) }
{
    match kind {
        EntryKind::Accepted(other, time, told) => {
            client.number == other.number && timestamp.0 == time.0 && answer.same(told)
        }
        _ => false,
    }
}

/// Whether the bytes are equal.
pub(crate) fn are_same_bytes(bytes: &[u8], others: &[u8]) -> bool
    ensures { IsTrue result ↔ (bytes.now ≡ others.now) }
{
    bytes == others
}
