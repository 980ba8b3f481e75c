//! The executed batches.

ghost use Rattle.std.specs.Prelude.{reverse, IfOk, OnOk};
ghost use Rattle.points.specs.Batching.{CollectsBatches, NotesBatch, numbered_of};

use events::{Entry, EntryKind};
use std::alloc::Global;
use std::collections::BTreeMap;
use terms::NoMemory;

/// The batch of the first execution of each number from 1 on, in a trace whose oldest entry stands first.
pub(crate) fn find_batches<'a>(
    alloc: Global,
    trace: &'a [Entry],
) -> Result<BTreeMap<u64, &'a [u8]>, NoMemory>
    ensures { IfOk result (λ found. CollectsBatches (reverse trace.now) (numbered_of found.entries)) }
{
    let mut found = BTreeMap::new(alloc);
    for entry in trace {
        note(&mut found, entry)?;
    }
    Ok(found)
}

fn note<'a>(found: &mut BTreeMap<u64, &'a [u8]>, entry: &'a Entry) -> Result<(), NoMemory>
    ensures { OnOk result (NotesBatch entry.now found.old.entries found.new.entries) }
{
    let EntryKind::Executed(_, number, batch) = entry.kind() else {
        return Ok(());
    };
    if number.0 == 0 {
        return Ok(());
    }
    if found.contains_key(&number.0) {
        return Ok(());
    }
    match found.insert(number.0, batch.as_slice()) {
        Ok(_) => Ok(()),
        Err(_) => Err(NoMemory),
    }
}
