//! A space that notes which pages may have changed.

ghost use Rattle.std.specs.Prelude.{◌≡◌, ◌^◌, ◌<◌, ℕ, true, false, IfOk, OnOk, OnErr};
ghost use Rattle.tuple_codec.specs.OperationView.{operation_of};
ghost use Rattle.space.specs.Answers.{AnswersOperation};
ghost use Rattle.space.specs.Births.{IsState, StateFollows, WantsMemory};
ghost use Rattle.space.specs.Pages.{tuple_page_text};
ghost use Rattle.space.specs.Watching.{is_changed, is_touched, IsWrittenAs, KeepsWritten, TouchesChanges, TouchesOnly};

use crate::births::{PAGES, empty_pages};
use crate::tuples::Space;
use std::alloc::{Allocator, Global};
use std::marker::Model;
use terms::NoMemory;
use tuple_codec::{Answer, Op};

/// A space, and which of its pages 0 to 255 may have changed since the last [`Watched::untouch`].
#[derive(Drop)]
pub struct Watched {
    space: Space,
    // The pages that may have changed in another way than by new tuples behind the others.
    changed: [bool; PAGES],
    // How many tuples lay on each page at the last untouch. On a page that isn't changed these are the oldest.
    written: [u8; PAGES],
}

impl Model for Watched {
    ghost use Rattle.space.specs.Watching.{WatchedState, watched_code, IsWatched};

    ghost Value = { WatchedState };

    ghost coded = { watched_code };

    ghost view = { λ a. record { state = a.space; changed = a.changed; written = a.written } };

    ghost invariant = { λ a. IsWatched (record { state = a.space; changed = a.changed; written = a.written }) };
}

impl Watched {
    /// A space whose pages are all touched, and changed.
    pub fn of(space: Space) -> Watched
        ensures state { result.state ≡ space }
        ensures all { (page : ℕ) → page < PAGES → is_touched result page ≡ true }
        ensures changed { (page : ℕ) → page < PAGES → is_changed result page ≡ true }
    {
        Watched {
            space,
            changed: [true; PAGES],
            written: empty_pages(),
        }
    }

    /// The space.
    pub fn space(&self) -> &Space
        ensures { result.now ≡ self.now.state }
    {
        &self.space
    }

    /// Applies an operation of a client as [`Space::apply`] does. Each page whose text changes is touched afterwards.
    /// One that the operation can't change is touched only if it was before. An `Err` leaves the space as it was.
    pub fn apply<A: Allocator>(
        &mut self,
        client: u16,
        op: &Op<A>,
    ) -> Result<Answer<Global>, NoMemory>
        requires { self.old.state.next < 2 ^ 62 }
        ensures answer { AnswersOperation result self.old.state client (operation_of op.now) }
        ensures state { OnOk result (StateFollows self.old.state self.new.state client (operation_of op.now)) }
        ensures valid { IsState self.new.state }
        ensures memory { OnErr result (WantsMemory self.old.state (operation_of op.now)) }
        ensures err { OnErr result (self.new.state ≡ self.old.state) }
        ensures touches { TouchesChanges self.old self.new }
        ensures only { TouchesOnly self.old self.new client (operation_of op.now) }
        ensures written { KeepsWritten self.old self.new }
    {
        self.space.mark_changed(client, op, &mut self.changed);
        self.space.apply(client, op)
    }

    /// Whether the text of page `page`, 0 to 255, may differ from that at the last [`Watched::untouch`]. Takes no
    /// memory.
    pub fn touched(&self, page: usize) -> bool
        requires { page < PAGES }
        ensures { result ≡ is_touched self.now page }
    {
        self.changed[page] || self.written[page] != self.space.page_counts()[page]
    }

    /// The text of page `page`, 0 to 255, as [`Space::page_text`] gives it. `written` is its text at the last
    /// [`Watched::untouch`]. If the page only got new tuples since, no others are looked at.
    pub fn page_text(&self, page: usize, written: &[u8]) -> Result<Vec<u8>, NoMemory>
        requires page { page < PAGES }
        requires written { IsWrittenAs self.now page written.now }
        ensures { IfOk result (λ text. text.items ≡ tuple_page_text self.now.state page) }
    {
        if self.changed[page] {
            return self.space.page_text(page);
        }
        let count = usize::from(self.written[page]);
        self.space.page_text_behind(page, count, written)
    }

    /// Begins anew: no page is touched. Takes no memory.
    pub fn untouch(&mut self)
        ensures state { self.new.state ≡ self.old.state }
        ensures none { (page : ℕ) → page < PAGES → is_touched self.new page ≡ false }
    {
        self.changed = [false; PAGES];
        self.written = *self.space.page_counts();
    }
}
