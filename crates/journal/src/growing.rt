//! The growth of a journal and its shares: all of them grow, or none does.

ghost use Rattle.std.specs.Prelude.{◌≡◌, ◌++◌, IfOk, OnOk, OnErr};
ghost use Rattle.terms.specs.Parties.{party_number};
ghost use Rattle.protocol.specs.System.Reads.{without_reads};
ghost use Rattle.journal.specs.Ties.{KeepsTies};

use crate::entries::{add_ordering, add_shared};
use crate::front::Front;
use crate::naming::Naming;
use crate::tie::{Tie, tie_event};
use events::Entry;
use terms::{NoMemory, Party};

/// Appends the entries, an event of the party, to the trace and to the party's history.
pub(crate) fn grow_both<N: Naming>(
    trace: &mut Vec<Entry>,
    history: &mut Vec<Entry>,
    tie: &mut Option<Tie<N>>,
    party: Party,
    mut entries: Vec<Entry>,
) -> Result<Option<Front<N>>, NoMemory>
    ensures trace { OnOk result (trace.new.items ≡ trace.old.items ++ entries.items) }
    ensures history { OnOk result (history.new.items ≡ history.old.items ++ entries.items) }
    ensures tied { IfOk result (λ front. KeepsTies (party_number party) entries.items tie.old tie.new front) }
    ensures err { OnErr result (trace.new.items ≡ trace.old.items) }
    ensures err_history { OnErr result (history.new.items ≡ history.old.items) }
    ensures err_tie { OnErr result (tie.new ≡ tie.old) }
{
    trace.reserve(entries.len())?;
    history.reserve(entries.len())?;
    add_shared(trace, entries.as_slice())?;
    let front = tie_event(tie, party, &entries);
    let _ = history.append(&mut entries);
    Ok(front)
}

/// The same, and appends the entries of ordering to the replica's ordering.
pub(crate) fn grow_three<N: Naming>(
    trace: &mut Vec<Entry>,
    history: &mut Vec<Entry>,
    ordering: &mut Vec<Entry>,
    tie: &mut Option<Tie<N>>,
    party: Party,
    entries: Vec<Entry>,
) -> Result<Option<Front<N>>, NoMemory>
    ensures trace { OnOk result (trace.new.items ≡ trace.old.items ++ entries.items) }
    ensures history { OnOk result (history.new.items ≡ history.old.items ++ entries.items) }
    ensures ordering { OnOk result (ordering.new.items ≡ ordering.old.items ++ without_reads entries.items) }
    ensures tied { IfOk result (λ front. KeepsTies (party_number party) entries.items tie.old tie.new front) }
    ensures err { OnErr result (trace.new.items ≡ trace.old.items) }
    ensures err_history { OnErr result (history.new.items ≡ history.old.items) }
    ensures err_ordering { OnErr result (ordering.new.items ≡ ordering.old.items) }
    ensures err_tie { OnErr result (tie.new ≡ tie.old) }
{
    let before = ordering.len();
    add_ordering(ordering, entries.as_slice())?;
    match grow_both(trace, history, tie, party, entries) {
        Ok(front) => Ok(front),
        Err(failed) => {
            ordering.truncate(before);
            Err(failed)
        }
    }
}
