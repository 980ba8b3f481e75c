//! One history of events for a journal and its shares. Only proofs know the events: the running program has a count
//! of them.

ghost use Rattle.std.specs.Prelude.{◌≡◌, ◌<◌, ◌^◌, ◌++◌, ◌∷◌, [], length, IsTrue};
ghost use mathlib.Core.List.{IsPrefix};
ghost use Rattle.journal.specs.Ties.{head_of};

use crate::naming::Naming;
use events::Entry;
use logbook::{Gain, Offer, Plain, Play, Rule, Seen, Start, Word};
use std::marker::{Model, PhantomData};

// An event in the history: its entries. The running program makes none.
#[derive(Drop)]
pub struct Event {
    entries: Vec<Entry>,
}

impl Model for Event {
    ghost use Rattle.std.specs.Prelude.{List};
    ghost use Rattle.protocol.specs.System.Trace.{Entry as TraceEntry};
    ghost use Rattle.journal.specs.Codes.{entries_code};

    ghost Value = { List TraceEntry };

    ghost coded = { entries_code };

    ghost view = { λ e. e.entries.items };
}

// The rule of the history: the word is the count of its events.
pub struct Law;

impl Rule<Event, u64> for Law {
    ghost use Rattle.std.specs.Prelude.{[]};
    ghost use base.Fml.{ftrue};
    ghost use Rattle.journal.specs.Ties.{CellsCountEvents};

    ghost holds = { λ cells events. CellsCountEvents cells events };

    ghost first = { [] };

    ghost hinted = { λ n events. Unit {0} };

    ghost shows = { λ events. [] };

    ghost keeps = { λ names events. ftrue };

    ghost moves = { λ ask before after answer. Unit {0} };
}

// Callers trade nothing.
pub struct Nothing;

impl Gain<Event, u64> for Nothing {
    ghost use base.Fml.{ftrue};

    ghost after = { λ names about answer. ftrue };
}

// A step that adds an event.
pub struct Add;

impl Play<Event, u64> for Add {
    ghost use Rattle.journal.specs.Ties.{BookAddsEvent};

    ghost then = { BookAddsEvent };
}

// The request of the step: the event.
impl Plain<Vec<Entry>, Event, u64> for Add {
    ghost use Rattle.std.specs.Prelude.{None};

    ghost ask = { λ v. v.items };

    ghost state = { λ v. None };
}

/// A book with an empty history, for one journal. It has no name yet; contracts see which book it is.
#[derive(Drop)]
pub struct Opened {
    head: Word<Event, u64, Law>,
    seen: Seen<Event, u64, Law>,
}

impl Model for Opened {
    ghost use Rattle.std.specs.Prelude.{◌≡◌, []};
    ghost use Rattle.logbook.specs.Pages.{Book};
    ghost use Rattle.journal.specs.Ties.{head_of};

    ghost Value = { Book };

    ghost view = { λ o. o.seen.book };

    ghost invariant = { λ o. (o.seen.log ≡ []) × (o.head ≡ head_of o.seen.book) };
}

impl Opened {
    /// A new book. Takes no memory.
    pub fn new() -> Opened {
        let (seen, mut first, _second) = Seen::open(Start::alone(), 0, 0);
        Opened {
            head: Word::tracked(0, &mut first),
            seen,
        }
    }

    /// The book under its name, and the front of no events.
    pub(crate) fn named<N: Naming>(self) -> (Book<N>, Front<N>)
        requires { self ≡ N.book }
        ensures { result.1 ≡ [] }
    {
        let Opened { head, seen } = self;
        let book = Book {
            head,
            naming: PhantomData,
        };
        let front = Front {
            count: 0,
            seen,
            naming: PhantomData,
        };
        (book, front)
    }
}

/// The word of a book: how many events its history has.
#[derive(Drop)]
pub(crate) struct Book<N: Naming> {
    head: Word<Event, u64, Law>,
    naming: PhantomData<N>,
    ghost head_is: { head ≡ head_of N.book },
}

/// A beginning of the history. Contracts see its events, the oldest first.
#[derive(Drop)]
pub(crate) struct Front<N: Naming> {
    count: u64,
    seen: Seen<Event, u64, Law>,
    naming: PhantomData<N>,
}

impl<N: Naming> Model for Front<N> {
    ghost use Rattle.std.specs.Prelude.{◌≡◌, List, length};
    ghost use Rattle.protocol.specs.System.Trace.{Entry as TraceEntry};
    ghost use Rattle.journal.specs.Codes.{events_code};

    ghost Value = { List (List TraceEntry) };

    ghost coded = { events_code };

    ghost view = { λ f. f.seen.log };

    ghost invariant = { λ f. (f.count ≡ length f.seen.log) × (f.seen.book ≡ N.book) };
}

impl<N: Naming> Front<N> {
    /// How many events this beginning has.
    pub(crate) fn count(&self) -> u64
        ensures { result ≡ length self.now }
    {
        self.count
    }

    /// The same beginning. Takes no memory.
    pub(crate) fn again(&self) -> Front<N>
        ensures { result ≡ self.now }
    {
        Front {
            count: self.count,
            seen: self.seen.again(),
            naming: PhantomData,
        }
    }

    /// Whether it is the shorter of two beginnings, which then begins the other.
    pub(crate) fn begins(&self, other: &Front<N>) -> bool
        ensures { IsTrue result → IsPrefix self.now other.now }
    {
        let mut both = self.seen.again();
        both.learn(&other.seen);
        if self.count <= other.count {
            true
        } else {
            false
        }
    }

    /// Adds an event, if this front is the whole history.
    pub(crate) fn add(&mut self, book: &Book<N>, event: &Vec<Entry>) -> bool
        requires { length self.old < 2 ^ 62 }
        ensures { IsTrue result → self.new ≡ self.old ++ event.now.items ∷ [] }
    {
        let mut offer: Offer<Event, u64, Law, Nothing> = self
            .seen
            .plain::<Nothing, Vec<Entry>, Add>(event);
        let mut pen = self.seen.no_pen();
        let count = self.count;
        let found = book
            .head
            .compare_exchange::<Add, Nothing>(
                count,
                count + 1,
                &mut self.seen,
                &mut offer,
                &mut pen,
            );
        self.count = if found == count { count + 1 } else { found };
        found == count
    }
}

/// The same beginning, if there is one.
pub(crate) fn again<N: Naming>(front: &Option<Front<N>>) -> Option<Front<N>>
    ensures { result ≡ front.now }
{
    match front {
        Some(front) => Some(front.again()),
        None => None,
    }
}
