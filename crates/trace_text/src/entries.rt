//! Entries.

ghost use Rattle.std.specs.Prelude.{◌≡◌, ◌++◌, OnOk, OnErr};
ghost use Rattle.tuple_text.specs.Written.{WritesText};
ghost use Rattle.trace_text.specs.Lines.{entry_line, invoke_line, got_line, tick_line, executed_line};
ghost use Rattle.trace_text.specs.Lines.{installed_line, sent_line, accepted_line, of_call, replica_and_number};
ghost use Rattle.events.specs.EntryView.{entry_of_kind};
ghost use Rattle.tuple_codec.specs.OperationView.{operation_of, outcome_of};
ghost use Rattle.terms.specs.Parties.{party_number};

use crate::frames::{put_frame, put_to};
use crate::lists::put_batch;
use crate::names::{put_party, put_short};
use crate::putting::{append, put, put_answer, put_op};
use events::{Entry, EntryKind};
use std::alloc::Global;
use terms::{ClientId, Digest, NoMemory, Number, Party, ReplicaId, Timestamp};
use tuple_codec::{Answer, Op};

/// Appends the line of an entry, as `executed r0 number 1 c0:1`. An `Err` leaves the bytes as they were.
pub fn write_entry(alloc: Global, entry: &Entry, out: &mut Vec<u8>) -> Result<(), NoMemory>
    ensures ok { OnOk result (out.new.items ≡ out.old.items ++ entry_line entry.now) }
    ensures err { OnErr result (out.new.items ≡ out.old.items) }
{
    let mut line = Vec::new(alloc);
    put_kind(alloc, entry.kind(), &mut line)?;
    Ok(out.extend_from_slice(line.as_slice())?)
}

fn put_kind(alloc: Global, kind: &EntryKind, out: &mut Vec<u8>) -> Result<(), NoMemory>
    ensures { WritesText result out.old.items (entry_line (entry_of_kind kind.now)) out.new.items }
{
    match kind {
        EntryKind::Invoke(client, timestamp, op) => {
            put_invoke(alloc, *client, *timestamp, op, out)
        }
        EntryKind::Got(party, bytes) => put_got(alloc, *party, bytes.as_slice(), out),
        EntryKind::Tick(party) => put_tick(alloc, *party, out),
        EntryKind::Executed(replica, number, batch) => {
            put_executed(alloc, *replica, *number, batch.as_slice(), out)
        }
        EntryKind::Installed(replica, number, root) => {
            put_installed(alloc, *replica, *number, root, out)
        }
        EntryKind::Sent(party, bytes) => put_sent(alloc, *party, bytes.as_slice(), out),
        EntryKind::Accepted(client, timestamp, answer) => {
            put_accepted(alloc, *client, *timestamp, answer, out)
        }
    }
}

fn put_got(alloc: Global, party: Party, bytes: &[u8], out: &mut Vec<u8>) -> Result<(), NoMemory>
    ensures { WritesText result out.old.items (got_line (party_number party) bytes.now) out.new.items }
{
    put_party(alloc, "got ", party, out)?;
    append(b" ", out)?;
    put_frame(alloc, bytes, out)
}

fn put_sent(alloc: Global, party: Party, bytes: &[u8], out: &mut Vec<u8>) -> Result<(), NoMemory>
    ensures { WritesText result out.old.items (sent_line (party_number party) bytes.now) out.new.items }
{
    put_party(alloc, "sent ", party, out)?;
    append(b" ", out)?;
    put_frame(alloc, bytes, out)?;
    append(b" to ", out)?;
    put_to(alloc, bytes, out)
}

fn put_executed(
    alloc: Global,
    replica: ReplicaId,
    number: Number,
    batch: &[u8],
    out: &mut Vec<u8>,
) -> Result<(), NoMemory>
    ensures { WritesText result out.old.items (executed_line replica.0 number.0 batch.now) out.new.items }
{
    put_number(alloc, "executed", replica, number, out)?;
    put_batch(alloc, batch, out)
}

fn put_installed(
    alloc: Global,
    replica: ReplicaId,
    number: Number,
    root: &Digest,
    out: &mut Vec<u8>,
) -> Result<(), NoMemory>
    ensures { WritesText result out.old.items (installed_line replica.0 number.0 root.now) out.new.items }
{
    put_number(alloc, "installed", replica, number, out)?;
    append(b"root ", out)?;
    put_short(alloc, root, out)
}

// The words before a batch or a root.
fn put_number(
    alloc: Global,
    word: &str,
    replica: ReplicaId,
    number: Number,
    out: &mut Vec<u8>,
) -> Result<(), NoMemory>
    ensures { WritesText result out.old.items (replica_and_number word.now replica.0 number.0) out.new.items }
{
    let (replica, number) = (replica.0, number.0);
    put(format!(in alloc; "{word} r{replica} number {number} "), out)
}

fn put_invoke(
    alloc: Global,
    client: ClientId,
    timestamp: Timestamp,
    op: &Op<Global>,
    out: &mut Vec<u8>,
) -> Result<(), NoMemory>
    ensures { WritesText result out.old.items
        (invoke_line client.number timestamp.0 (operation_of op.now)) out.new.items }
{
    put_call(alloc, "invoke", client, timestamp, out)?;
    put_op(op, out)
}

fn put_tick(alloc: Global, party: Party, out: &mut Vec<u8>) -> Result<(), NoMemory>
    ensures { WritesText result out.old.items (tick_line (party_number party)) out.new.items }
{
    put_party(alloc, "tick ", party, out)
}

fn put_accepted(
    alloc: Global,
    client: ClientId,
    timestamp: Timestamp,
    answer: &Answer<Global>,
    out: &mut Vec<u8>,
) -> Result<(), NoMemory>
    ensures { WritesText result out.old.items
        (accepted_line client.number timestamp.0 (outcome_of answer.now)) out.new.items }
{
    put_call(alloc, "accepted", client, timestamp, out)?;
    put_answer(answer, out)
}

// The words before an operation or an answer.
fn put_call(
    alloc: Global,
    word: &str,
    client: ClientId,
    timestamp: Timestamp,
    out: &mut Vec<u8>,
) -> Result<(), NoMemory>
    ensures { WritesText result out.old.items (of_call word.now client.number timestamp.0) out.new.items }
{
    let (client, time) = (client.number, timestamp.0);
    put(format!(in alloc; "{word} c{client} time {time} "), out)
}
