//! Events as entries.

ghost use Rattle.std.specs.Prelude.{◌≡◌, ◌∷◌, map, IfOk};
ghost use Rattle.terms.specs.Parties.{party_number};
ghost use Rattle.tuple_codec.specs.OperationView.{operation_of};
ghost use Rattle.protocol.specs.System.Trace.Entry.{Invoke};
ghost use Rattle.events.specs.Outputs.{entry_of};
ghost use Rattle.journal.specs.Histories.{IsEventOf, IsOutputOf};
ghost use Rattle.space_node.specs.PartyStates.{IsInputOf};

use events::{Entry, EntryKind, Output};
use std::alloc::Global;
use std::sync::Arc;
use terms::{ClientId, NoMemory, Party, Timestamp};
use tuple_codec::Op;

/// The entries of a party's event: its input, and its outputs. They share the bytes of frames.
pub(crate) fn entries_of(
    alloc: Global,
    party: Party,
    input: Entry,
    outputs: &[Output],
) -> Result<Vec<Entry>, NoMemory>
    requires input { IsInputOf (party_number party) input }
    ensures entries { IfOk result (λ es. es.items ≡ input ∷ map (entry_of (party_number party)) outputs.now) }
    ensures event { IfOk result (λ es. IsEventOf (party_number party) es.items) }
{
    let mut entries = Vec::with_capacity(alloc, 1 + outputs.len())?;
    entries.push(input)?;
    for output in outputs {
        entries.push(output_entry(alloc, party, output)?)?;
    }
    Ok(entries)
}

/// The entry of a client's call, which has a copy of the operation.
pub(crate) fn invocation(
    alloc: Global,
    client: ClientId,
    timestamp: Timestamp,
    op: &Op<Global>,
) -> Result<Entry, NoMemory>
    ensures { IfOk result (λ entry. entry ≡ Invoke client.number timestamp.0 (operation_of op.now)) }
{
    let op = Arc::new(alloc, op.copy_in(alloc)?)?;
    Ok(Entry::new(EntryKind::Invoke(client, timestamp, op)))
}

fn output_entry(alloc: Global, party: Party, output: &Output) -> Result<Entry, NoMemory>
    ensures says { IfOk result (λ entry. entry ≡ entry_of (party_number party) output.now) }
    ensures own { IfOk result (λ entry. IsOutputOf (party_number party) entry) }
{
    match (party, output) {
        (_, Output::Send(_, frame)) => Ok(Entry::new(EntryKind::Sent(party, frame.share()?))),
        (Party::Replica(replica), Output::Executed(number, batch)) => {
            Ok(Entry::new(EntryKind::Executed(replica, *number, batch.share()?)))
        }
        (Party::Replica(replica), Output::Installed(number, root)) => {
            let root = Arc::new(alloc, *root)?;
            Ok(Entry::new(EntryKind::Installed(replica, *number, root)))
        }
        (Party::Client(client), Output::Accepted(timestamp, answer)) => {
            let answer = Arc::new(alloc, answer.copy_in(alloc)?)?;
            Ok(Entry::new(EntryKind::Accepted(client, *timestamp, answer)))
        }
        // No party has such an output.
        _ => Err(NoMemory),
    }
}
