//! The part of the journal that a party keeps.

ghost use Rattle.std.specs.Prelude.{◌≡◌, [], true, reverse, IfSome};
ghost use Rattle.terms.specs.Parties.{party_number};
ghost use Rattle.protocol.specs.System.Configuration.{is_correct};
ghost use Rattle.journal.specs.Histories.{IsRight};
ghost use Rattle.journal.specs.Parts.{fresh};

use crate::front::Front;
use crate::naming::Naming;
use events::Entry;
use std::alloc::Global;
use std::marker::{Model, PhantomData};
use std::mem;
use terms::Party;

/// A correct party's history, which is right.
#[derive(Drop)]
pub struct Share<N: Naming> {
    pub(crate) party: Party,
    pub(crate) history: Vec<Entry>,
    pub(crate) seen: Option<Front<N>>,
    pub(crate) naming: PhantomData<N>,
}

impl<N: Naming> Model for Share<N> {
    ghost use Rattle.std.specs.Prelude.{◌≡◌, true, reverse};
    ghost use Rattle.terms.specs.Parties.{party_number};
    ghost use Rattle.protocol.specs.System.Configuration.{is_correct};
    ghost use Rattle.protocol.specs.System.Trace.{history_of};
    ghost use Rattle.journal.specs.Histories.{IsRight};
    ghost use Rattle.journal.specs.Codes.{part_code};
    ghost use Rattle.journal.specs.Parts.{Part};
    ghost use Rattle.journal.specs.Ties.{SeenHasHistory};

    ghost Value = { Part };

    ghost coded = { part_code };

    ghost view = { λ s. record { party = party_number s.party; history = reverse s.history.items } };

    ghost invariant = { λ s. (is_correct N.config (party_number s.party) ≡ true)
        × IsRight N.config (party_number s.party) (reverse s.history.items)
        × SeenHasHistory history_of s.seen (party_number s.party) s.history.items };
}

impl<N: Naming> Share<N> {
    // The share of a party that has done nothing, with the events of an empty journal.
    pub(crate) fn new(alloc: Global, party: Party, seen: Option<Front<N>>) -> Share<N>
        requires party { is_correct N.config (party_number party) ≡ true }
        requires seen { IfSome seen (λ front. front ≡ []) }
        ensures { result ≡ fresh (party_number party) }
    {
        Share {
            party,
            history: Vec::new(alloc),
            seen,
            naming: PhantomData,
        }
    }

    /// A share of a correct party that has done nothing.
    pub fn empty(alloc: Global, party: Party) -> Share<N>
        requires { is_correct N.config (party_number party) ≡ true }
        ensures { result ≡ fresh (party_number party) }
    {
        Share::new(alloc, party, None)
    }

    /// The share; one without entries stays.
    pub fn take(&mut self, alloc: Global) -> Share<N>
        ensures taken { result ≡ self.old }
        ensures left { self.new ≡ fresh self.old.party }
    {
        let history = mem::replace(&mut self.history, Vec::new(alloc));
        let seen = mem::replace(&mut self.seen, None);
        Share {
            party: self.party,
            history,
            seen,
            naming: PhantomData,
        }
    }

    /// The party of the share.
    pub fn party(&self) -> Party
        ensures value { party_number result ≡ self.now.party }
        ensures correct { is_correct N.config self.now.party ≡ true }
    {
        self.party
    }

    /// The history is a correct party's, and right. Does nothing: a caller calls it if a proof needs the fact.
    pub fn note_right(&self)
        ensures correct { is_correct N.config self.now.party ≡ true }
        ensures right { IsRight N.config self.now.party self.now.history }
    {
        let _ = &self.party;
    }

    /// The history, the oldest entry first.
    pub fn history(&self) -> &[Entry]
        ensures { reverse result.now ≡ self.now.history }
    {
        self.history.as_slice()
    }
}
