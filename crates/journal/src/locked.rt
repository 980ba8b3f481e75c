//! The journal, which a cluster keeps behind one lock.

ghost use Rattle.std.specs.Prelude.{◌≡◌, ◌↔◌, ◌≤◌, [], reverse, length, IfOk, IfSome, OnOk, OnErr, IsTrue};
ghost use Rattle.events.specs.Outputs.{after_entries};
ghost use Rattle.protocol.specs.System.Run.{IsRun};
ghost use Rattle.journal.specs.Carrying.{Carried, IsCarriedFrom};
ghost use Rattle.journal.specs.Faults.{AppendIsRight};
ghost use Rattle.journal.specs.Histories.{IsEventOf, IsRight};
ghost use Rattle.journal.specs.Parts.{JournalAgrees, AgreeInOrdering, JournalHasRoom, InStep, IsOpening, longer, longer_part};
ghost use Rattle.protocol.specs.System.Reads.{without_reads};
ghost use Rattle.journal.specs.Ties.{TiesJournal};

use crate::carrying::Faulty;
use crate::fault::AppendFault;
use crate::front::{Front, Opened, again};
use crate::growing::{grow_both, grow_three};
use crate::matching::{agree, are_alike};
use crate::naming::Naming;
use crate::opening::{new_order_shares, new_shares};
use crate::order_share::OrderShare;
use crate::share::Share;
use crate::tie::Tie;
use events::{Config, Entry};
use std::alloc::Global;
use std::marker::{Model, PhantomData};
use std::mem;
use terms::NoMemory;

/// The trace of a running cluster.
#[derive(Drop)]
pub struct Journal<N: Naming> {
    entries: Vec<Entry>,
    limit: u32,
    faulty: Faulty<N>,
    tie: Option<Tie<N>>,
    naming: PhantomData<N>,
}

impl<N: Naming> Model for Journal<N> {
    ghost use Rattle.std.specs.Prelude.{reverse};
    ghost use Rattle.journal.specs.Codes.{journaled_code};
    ghost use Rattle.journal.specs.Comparing.{JournalIsKept};
    ghost use Rattle.journal.specs.Parts.{Journaled};
    ghost use Rattle.journal.specs.Ties.{TiesJournal};

    ghost Value = { Journaled };

    ghost coded = { journaled_code };

    ghost view = { λ j. record { trace = reverse j.entries.items; limit = j.limit } };

    ghost invariant = { λ j. JournalIsKept N.config j.entries.items j.limit × TiesJournal j.tie j.entries.items };
}

impl<N: Naming> Journal<N> {
    /// An empty journal of at most `limit` entries, a share for each correct party, and one of its ordering for each
    /// correct replica. Nothing ties them, so each append compares them whole.
    ///
    /// # Errors
    ///
    /// Out of memory.
    pub fn new(
        alloc: Global,
        config: &Config,
        limit: u32,
    ) -> Result<(Journal<N>, Vec<Share<N>>, Vec<OrderShare<N>>), NoMemory>
        requires config { config.now ≡ N.config }
        ensures opens { IfOk result (λ r. IsOpening config.now limit r.0 r.1.items r.2.items) }
    {
        Self::open(alloc, config, limit, None, None)
    }

    /// The same, tied by a new book: an append takes no longer after many others.
    ///
    /// # Errors
    ///
    /// Out of memory.
    pub fn tied(
        alloc: Global,
        opened: Opened,
        config: &Config,
        limit: u32,
    ) -> Result<(Journal<N>, Vec<Share<N>>, Vec<OrderShare<N>>), NoMemory>
        requires config { config.now ≡ N.config }
        requires book { opened ≡ N.book }
        ensures opens { IfOk result (λ r. IsOpening config.now limit r.0 r.1.items r.2.items) }
    {
        let (book, front) = opened.named::<N>();
        let seen = Some(front.again());
        let tie = Tie::new(alloc, config, book, front)?;
        Self::open(alloc, config, limit, Some(tie), seen)
    }

    fn open(
        alloc: Global,
        config: &Config,
        limit: u32,
        tie: Option<Tie<N>>,
        seen: Option<Front<N>>,
    ) -> Result<(Journal<N>, Vec<Share<N>>, Vec<OrderShare<N>>), NoMemory>
        requires config { config.now ≡ N.config }
        requires tie { TiesJournal tie [] }
        requires seen { IfSome seen (λ front. front ≡ []) }
        ensures opens { IfOk result (λ r. IsOpening config.now limit r.0 r.1.items r.2.items) }
    {
        let journal = Journal {
            entries: Vec::new(alloc),
            limit,
            faulty: Faulty::new(alloc, config)?,
            tie,
            naming: PhantomData,
        };
        let shares = new_shares(alloc, config, &seen)?;
        let orders = new_order_shares(alloc, config, &seen)?;
        Ok((journal, shares, orders))
    }

    /// How many entries it has. Whenever a caller asks, the trace is a run's, in which received frames were sent, and
    /// the limit is kept.
    #[tactic(auto, using(crate::proofs::Turned::turned_length))]
    pub fn len(&self) -> u64
        ensures value { result ≡ length self.now.trace }
        ensures run { IsRun N.config self.now.trace }
        ensures carried { Carried N.config self.now.trace }
        ensures room { length self.now.trace ≤ self.now.limit }
    {
        self.entries.len() as u64
    }

    /// The trace, the oldest entry first, which leaves the journal. It is a run's, in which received frames were
    /// sent.
    pub fn take(&mut self, alloc: Global) -> Vec<Entry>
        ensures trace { reverse result.items ≡ self.old.trace }
        ensures run { IsRun N.config (reverse result.items) }
        ensures carried { Carried N.config (reverse result.items) }
        ensures left { self.new ≡ record self.old { trace = [] } }
    {
        self.tie = None;
        mem::replace(&mut self.entries, Vec::new(alloc))
    }

    /// Whether the share's history is the journal's history of its party.
    pub fn agrees(&self, share: &Share<N>) -> bool
        ensures { IsTrue result ↔ JournalAgrees self.now share.now }
    {
        agree(
            &self.tie,
            self.entries.as_slice(),
            share.party,
            &share.seen,
            share.history.as_slice(),
        )
    }

    // Whether the share of ordering has the entries of ordering of the share, which agrees with the journal.
    fn are_alike(&self, share: &Share<N>, order: &OrderShare<N>) -> bool
        requires { JournalAgrees self.now share.now }
        ensures { IsTrue result ↔ AgreeInOrdering share.now order.now }
    {
        share.party.number() == order.party.number()
            && are_alike(
                &self.tie,
                share.party,
                share.history.as_slice(),
                &order.seen,
                order.history.as_slice(),
            )
    }

    // Whether the share's history is the journal's, and the bytes that the event received were sent or may come from
    // anywhere.
    fn is_in_step(&self, share: &Share<N>, from: Option<u64>, entries: &[Entry]) -> bool
        ensures { IsTrue result ↔ InStep N.config self.now share.now from entries.now }
    {
        self.agrees(share) && self.lets_come(from, entries)
    }

    fn lets_come(&self, from: Option<u64>, entries: &[Entry]) -> bool
        ensures { IsTrue result ↔ IsCarriedFrom N.config self.now.trace from entries.now }
    {
        self.faulty.let_come(self.entries.as_slice(), from, entries)
    }

    #[tactic(auto, using(crate::proofs::Turned::turned_length))]
    fn has_room(&self, entries: &[Entry]) -> bool
        ensures { IsTrue result ↔ JournalHasRoom self.now entries.now }
    {
        entries.len() <= self.limit as usize - self.entries.len()
    }

    /// Appends an event of the share's party, the oldest entry first. `from` is the position at which the received
    /// frame was sent.
    ///
    /// # Errors
    ///
    /// NotInJournal exactly if the journal has another history of the party, or the received bytes were not sent
    /// there and may not come from anywhere. JournalFull exactly if neither holds and the limit would be passed.
    /// NoMemory if memory runs out. An error changes nothing.
    pub fn append(
        &mut self,
        share: &mut Share<N>,
        from: Option<u64>,
        entries: Vec<Entry>,
    ) -> Result<(), AppendFault>
        requires event { IsEventOf share.old.party entries.items }
        requires right { IsRight N.config share.old.party (after_entries entries.items share.old.history) }
        ensures taken { OnOk result (self.new ≡ longer self.old entries.items) }
        ensures kept { OnOk result (share.new ≡ longer_part share.old entries.items) }
        ensures refused { OnErr result (self.new ≡ self.old) }
        ensures unkept { OnErr result (share.new ≡ share.old) }
        ensures tells { AppendIsRight result (InStep N.config self.old share.old from entries.items)
            (JournalHasRoom self.old entries.items) }
    {
        if !self.is_in_step(share, from, entries.as_slice()) {
            return Err(AppendFault::NotInJournal);
        }
        if !self.has_room(entries.as_slice()) {
            return Err(AppendFault::JournalFull);
        }
        let party = share.party;
        match grow_both(
            &mut self.entries,
            &mut share.history,
            &mut self.tie,
            party,
            entries,
        ) {
            Ok(front) => {
                share.seen = front;
                Ok(())
            }
            Err(_) => Err(AppendFault::NoMemory),
        }
    }

    /// The same for an ordering thread, whose share of ordering has a lock of its own. That share must have the
    /// share's history without reads, and the event's entries of ordering are appended to it.
    ///
    /// # Errors
    ///
    /// As of `append`; NotInJournal also if the two shares differ.
    pub fn append_order(
        &mut self,
        share: &mut Share<N>,
        order: &mut OrderShare<N>,
        from: Option<u64>,
        entries: Vec<Entry>,
    ) -> Result<(), AppendFault>
        requires event { IsEventOf share.old.party entries.items }
        requires right { AgreeInOrdering share.old order.old
            → IsRight N.config share.old.party (after_entries entries.items share.old.history) }
        ensures taken { OnOk result (self.new ≡ longer self.old entries.items) }
        ensures kept { OnOk result (share.new ≡ longer_part share.old entries.items) }
        ensures ordered { OnOk result (order.new ≡ longer_part order.old (without_reads entries.items)) }
        ensures refused { OnErr result (self.new ≡ self.old) }
        ensures unkept { OnErr result (share.new ≡ share.old) }
        ensures unordered { OnErr result (order.new ≡ order.old) }
        ensures tells { AppendIsRight result
            (InStep N.config self.old share.old from entries.items × AgreeInOrdering share.old order.old)
            (JournalHasRoom self.old entries.items) }
    {
        if !self.is_in_step(share, from, entries.as_slice()) || !self.are_alike(share, order) {
            return Err(AppendFault::NotInJournal);
        }
        if !self.has_room(entries.as_slice()) {
            return Err(AppendFault::JournalFull);
        }
        let party = share.party;
        match grow_three(
            &mut self.entries,
            &mut share.history,
            &mut order.history,
            &mut self.tie,
            party,
            entries,
        ) {
            Ok(front) => {
                order.seen = again(&front);
                share.seen = front;
                Ok(())
            }
            Err(_) => Err(AppendFault::NoMemory),
        }
    }
}
