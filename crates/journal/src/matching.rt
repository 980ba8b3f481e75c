//! Whether a journal and its shares agree: known by the tie, or else found by comparing them whole.

ghost use Rattle.std.specs.Prelude.{◌≡◌, ◌↔◌, IsTrue, reverse};
ghost use Rattle.terms.specs.Parties.{party_number};
ghost use Rattle.protocol.specs.System.Trace.{history_of};
ghost use Rattle.journal.specs.Comparing.{ordering_of};
ghost use Rattle.protocol.specs.System.Reads.{without_reads};
ghost use Rattle.journal.specs.Ties.{IsTiedHistory, SeenHasHistory, TiesJournal};

use crate::comparing::{is_history, is_ordering};
use crate::front::Front;
use crate::naming::Naming;
use crate::tie::{Tie, is_known, is_ordering_known};
use events::Entry;
use terms::Party;

/// Whether the history is the trace's history of the party.
pub(crate) fn agree<N: Naming>(
    tie: &Option<Tie<N>>,
    trace: &[Entry],
    party: Party,
    seen: &Option<Front<N>>,
    history: &[Entry],
) -> bool
    requires ties { TiesJournal tie.now trace.now }
    requires marks { SeenHasHistory history_of seen.now (party_number party) history.now }
    ensures { IsTrue result ↔ (history_of (party_number party) (reverse trace.now) ≡ reverse history.now) }
{
    is_known(tie, party, seen) || is_history(trace, party.number(), history)
}

/// Whether the ordering is the history without reads. The history is the trace's of the party.
pub(crate) fn are_alike<N: Naming>(
    tie: &Option<Tie<N>>,
    party: Party,
    history: &[Entry],
    seen: &Option<Front<N>>,
    ordering: &[Entry],
) -> bool
    requires tied { IsTiedHistory tie.now (party_number party) history.now }
    requires marks { SeenHasHistory ordering_of seen.now (party_number party) ordering.now }
    ensures { IsTrue result ↔ (without_reads (reverse history.now) ≡ reverse ordering.now) }
{
    is_ordering_known(tie, party, seen) || is_ordering(history, ordering)
}
