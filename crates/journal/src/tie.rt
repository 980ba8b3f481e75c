//! The tie of a journal and its shares, so that an append needn't compare them whole. It only says if they are known
//! to agree, and says nothing if they aren't.

ghost use Rattle.std.specs.Prelude.{◌≡◌, [], Some, IfSome, OnSome, IfOk, IsTrue, slice_get};
ghost use Rattle.terms.specs.Parties.{party_number};
ghost use Rattle.protocol.specs.System.Trace.{history_of};
ghost use Rattle.journal.specs.Comparing.{ordering_of};
ghost use Rattle.journal.specs.Ties.{AddsEvent, IsTied, KeepsTies, SeenReachesLast, SeenShowsAll};

use crate::entries::have_ordering;
use crate::front::{Book, Front};
use crate::naming::Naming;
use events::{Config, Entry};
use std::alloc::Global;
use std::marker::Model;
use terms::{FIRST_CLIENT, NoMemory, Party};

/// A journal's book and its events. For each party, by its number, it has the count of events up to the party's last
/// one, and up to its last one of ordering.
#[derive(Drop)]
pub(crate) struct Tie<N: Naming> {
    book: Book<N>,
    front: Front<N>,
    lasts: Vec<u64>,
    ordered: Vec<u64>,
}

impl<N: Naming> Model for Tie<N> {
    ghost use Rattle.journal.specs.Codes.{knot_code};
    ghost use Rattle.journal.specs.Ties.{Knot};

    ghost Value = { Knot };

    ghost coded = { knot_code };

    ghost view = { λ t. record { events = t.front; lasts = t.lasts.items; ordered = t.ordered.items } };
}

// The number of this party.
fn last_of(lasts: &[u64], party: Party) -> Option<u64>
    ensures { result ≡ slice_get lasts.now (party_number party) }
{
    lasts.get(usize::from(party.number())).copied()
}

// Whether `seen` begins `whole`, and has at least `last` events.
fn reaches<N: Naming>(seen: &Front<N>, whole: &Front<N>, last: Option<u64>) -> bool
    ensures { IsTrue result → SeenReachesLast seen.now whole.now last }
{
    match last {
        Some(last) => last <= seen.count() && seen.begins(whole),
        None => false,
    }
}

impl<N: Naming> Tie<N> {
    /// The tie of an empty journal, with numbers for all parties of the configuration.
    pub(crate) fn new(
        alloc: Global,
        config: &Config,
        book: Book<N>,
        front: Front<N>,
    ) -> Result<Tie<N>, NoMemory>
        requires { front ≡ [] }
        ensures { IfOk result (λ tie. IsTied tie []) }
    {
        let parties = usize::from(FIRST_CLIENT) + usize::from(config.clients());
        Ok(Tie {
            book,
            front,
            lasts: Vec::from_elem(alloc, 0, parties)?,
            ordered: Vec::from_elem(alloc, 0, parties)?,
        })
    }

    fn shows(&self, party: Party, seen: &Front<N>) -> bool
        ensures { IsTrue result → SeenShowsAll history_of (Some self.now) (Some seen.now) (party_number party) }
    {
        reaches(seen, &self.front, last_of(self.lasts.as_slice(), party))
    }

    fn shows_ordering(&self, party: Party, seen: &Front<N>) -> bool
        ensures { IsTrue result → SeenShowsAll ordering_of (Some self.now) (Some seen.now) (party_number party) }
    {
        reaches(seen, &self.front, last_of(self.ordered.as_slice(), party))
    }

    // Adds an event of the party, and gives all events.
    fn add(&mut self, party: Party, event: &Vec<Entry>) -> Option<Front<N>>
        ensures all { IfSome result (λ front. front ≡ self.new.events) }
        ensures adds { OnSome result (AddsEvent (party_number party) event.now.items self.old self.new) }
    {
        let at = usize::from(party.number());
        if at >= self.lasts.len() || at >= self.ordered.len() || self.front.count() >= 1 << 62 {
            return None;
        }
        if !self.front.add(&self.book, event) {
            return None;
        }
        let count = self.front.count();
        self.lasts[at] = count;
        if have_ordering(event.as_slice()) {
            self.ordered[at] = count;
        }
        Some(self.front.again())
    }
}

/// Whether `seen` is known to have all of the party's entries.
pub(crate) fn is_known<N: Naming>(
    tie: &Option<Tie<N>>,
    party: Party,
    seen: &Option<Front<N>>,
) -> bool
    ensures { IsTrue result → SeenShowsAll history_of tie.now seen.now (party_number party) }
{
    match (tie, seen) {
        (Some(tie), Some(seen)) => tie.shows(party, seen),
        _ => false,
    }
}

/// The same, of the party's entries of ordering.
pub(crate) fn is_ordering_known<N: Naming>(
    tie: &Option<Tie<N>>,
    party: Party,
    seen: &Option<Front<N>>,
) -> bool
    ensures { IsTrue result → SeenShowsAll ordering_of tie.now seen.now (party_number party) }
{
    match (tie, seen) {
        (Some(tie), Some(seen)) => tie.shows_ordering(party, seen),
        _ => false,
    }
}

/// Adds an event of the party, and gives all events. If that fails, nothing is tied any more.
pub(crate) fn tie_event<N: Naming>(
    tie: &mut Option<Tie<N>>,
    party: Party,
    event: &Vec<Entry>,
) -> Option<Front<N>>
    ensures { KeepsTies (party_number party) event.now.items tie.old tie.new result }
{
    let Some(known) = tie else {
        return None;
    };
    match known.add(party, event) {
        Some(front) => Some(front),
        None => {
            *tie = None;
            None
        }
    }
}
