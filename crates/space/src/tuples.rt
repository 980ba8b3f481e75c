//! The space and its operations.

ghost use Rattle.std.specs.Prelude.{◌≡◌, ℕ, ◌+◌, ◌%◌, ◌^◌, ◌<◌, ◌≤◌, true, length, slice_index_or, slice_set, is_some};
ghost use Rattle.std.specs.Prelude.{OnOk, OnErr, IfOk, IfSome, IsTrue, ◌↔◌};
ghost use Rattle.std.specs.List.{range_with_len};
ghost use Rattle.std.specs.Ordering.{nat_cmp};
ghost use Rattle.std.specs.Map.{lookup};
ghost use Rattle.std.specs.BTreeMap.{is_at};
ghost use Rattle.tuple_tree.specs.Values.{IsTuple};
ghost use Rattle.tuple_codec.specs.Operations.{rdp, inp, cas, rd_all, in_all};
ghost use Rattle.tuple_codec.specs.OperationView.{operation_of, outcome_of};
ghost use Rattle.space.specs.Answers.{AnswersOperation, AnswersAnyone, RefusesChanges, LacksMemory};
ghost use Rattle.space.specs.Candidates.{candidates_of};
ghost use Rattle.space.specs.Applying.{served_outcome, first_match, has_room, most_tuples, is_unknown, is_forbidden};
ghost use Rattle.space.specs.Applying.{refuses};
ghost use Rattle.space.specs.Seeing.{ShowsAnyone, ShowsServed, StaysAsAsked, outcome_seen};
ghost use Rattle.space.specs.Serving.{AnswersServed, FollowsServed, WantsServed};
ghost use Rattle.space.specs.Pages.{tuple_page_text, text_of_oldest, header_text, texts_of, ArePagesOfTuples};
ghost use Rattle.space.specs.Pages.{MayBePages, ReadsEachState};
ghost use Rattle.space.specs.Reading.{ArePagesOf, ReadsAllPages};
ghost use Rattle.space.specs.Found.{IsOldest, without_birth, without_births};
ghost use Rattle.space.specs.Marking.{MarksChanged, with_pages};
ghost use Rattle.space.specs.Births.{IsState, StateFollows, TuplesFollow, WantsMemory, empty_state, empty_in};
ghost use Rattle.space.specs.Births.{oldest_births, page_count, tuples_of, with_birth, with_tuple, without_match};
ghost use Rattle.space.specs.Births.{without_matches, upgraded};

use crate::births::{PAGES, empty_pages, next_birth};
use crate::index::Index;
use crate::matching::{births_of_matches, copies_of_matches, oldest_match, seen_matches};
use crate::pages::{HEADER_LEN, header_of, text_behind};
use crate::reading::{read_header, read_page};
use crate::seen::Seen;
use crate::stored::Stored;
use crate::version::{MAX_TUPLES, MAX_TUPLES_V2, Version};
use arrayvec::ArrayVec;
use std::alloc::{Allocator, Global};
use std::collections::BTreeMap;
use std::marker::Model;
use terms::NoMemory;
use thiserror::Error;
use tuple_codec::{Answer, Bad, MAX_ANSWERS, Max, Op};
use tuple_tree::{Template, Tuple};

const BIRTHS_END: u64 = 1 << 62;

/// Why a space was not read.
#[derive(Clone, Copy, Debug, PartialEq, Eq, Error)]
pub enum PeekFault {
    #[error("not a read-only operation")]
    NotReadOnly,
    #[error("out of memory")]
    NoMemory,
}

impl From<NoMemory> for PeekFault {
    ghost use Rattle.std.specs.Prelude.{◌≡◌};
    ghost use Rattle.space.specs.declared.tuples.PeekFault.{PeekFault};

    ghost from_gives = { λ _ fault. fault ≡ PeekFault.NoMemory };

    fn from(_failed: NoMemory) -> PeekFault {
        PeekFault::NoMemory
    }
}

/// A tuple space of one process.
#[derive(Drop)]
pub struct Space {
    alloc: Global,
    version: Version,
    tuples: Stored,
    next: u64,
    // How many tuples lie on each page, so that a birth number is found without a look at the tuples.
    page_counts: [u8; PAGES],
    index: Index,
}

impl Model for Space {
    ghost use Rattle.std.specs.Prelude.{◌≡◌};
    ghost use Rattle.space.specs.Births.{SpaceState, space_code};
    ghost use Rattle.space.specs.Counted.{IsIndexed};

    ghost Value = { SpaceState };

    ghost coded = { space_code };

    ghost view = { λ a. record { version = a.version; entries = a.tuples.entries; next = a.next } };

    ghost invariant = { λ a. IsIndexed a.version a.tuples.entries a.next a.page_counts a.index };
}

impl Space {
    /// The empty space of version 1. Takes no memory.
    pub fn new(alloc: Global) -> Space
        ensures state { result ≡ empty_state }
        ensures valid { IsState result }
    {
        Space::empty(alloc, Version::One)
    }

    /// The empty space of version 2. Takes no memory.
    pub fn new_v2(alloc: Global) -> Space
        ensures state { result ≡ empty_in Version.Two }
        ensures valid { IsState result }
    {
        Space::empty(alloc, Version::Two)
    }

    // The empty space of a version.
    fn empty(alloc: Global, version: Version) -> Space
        ensures state { result ≡ empty_in version }
        ensures valid { IsState result }
    {
        Space {
            alloc,
            version,
            tuples: Stored::new(alloc),
            next: 0,
            page_counts: empty_pages(),
            index: Index::new(alloc),
        }
    }

    /// The space of a state by the texts of its pages 0 to 255 and its header, whose first byte tells the version, and
    /// how many batches were executed by the header.
    ///
    /// # Errors
    ///
    /// Malformed if no state within the limits has these texts and this header. In a state within the limits
    ///
    /// - births rise on their page, and are below the next one;
    /// - at most 64 tuples lie on a page, and in all as many as the version allows;
    /// - each tuple is spelled, in version 2 after its length;
    /// - there are at most 4,096 births for each executed batch, and fewer than 2 to the power of 48 batches.
    ///
    /// NoMemory if memory runs out before that is seen. The number of texts and the header are judged first.
    pub fn from_pages(alloc: Global, pages: &[&[u8]], header: &[u8]) -> Result<(Space, u64), Bad>
        // The space that is read has these pages.
        ensures found { IfOk result (λ x. ArePagesOfTuples (texts_of pages.now) header.now x.0 x.1) }

        // A wrong number of texts, or a header that is no state's, is refused as such.
        ensures memory { (result ≡ Err Bad.NoMemory) → MayBePages (texts_of pages.now) header.now }

        // The state with these pages is read, unless memory runs out.
        ensures only { ReadsEachState (texts_of pages.now) header.now result }
    {
        if pages.len() != PAGES {
            return Err(Bad::Malformed);
        }
        match read_header(header) {
            Some(head) => {
                let space = Space::with_pages(alloc, head.version, pages, head.next)?;
                Ok((space, head.number))
            }
            None => Err(Bad::Malformed),
        }
    }

    // The space of a version by the texts of its pages 0 to 255 and its next birth number.
    fn with_pages(alloc: Global, version: Version, pages: &[&[u8]], next: u64) -> Result<Space, Bad>
        requires { length pages.now ≡ PAGES }
        ensures found { IfOk result (λ s. ArePagesOf version next (texts_of pages.now) s) }
        ensures only { ReadsAllPages version next (texts_of pages.now) result }
    {
        let mut tuples = BTreeMap::new(alloc);
        let mut page_counts = empty_pages();
        for (page, text) in pages.iter().enumerate() {
            page_counts[page] = read_page(alloc, version, &mut tuples, text, page, next)?;
        }
        if tuples.len() > limit_of(version) {
            return Err(Bad::Malformed);
        }
        let index = Index::of(alloc, &tuples)?;
        let tuples = Stored::of(alloc, tuples)?;
        Ok(Space {
            alloc,
            version,
            tuples,
            next,
            page_counts,
            index,
        })
    }

    /// The version.
    pub fn version(&self) -> Version
        ensures { result ≡ self.now.version }
    {
        self.version
    }

    /// How many tuples there are, 0 to 8,192 in version 1, 0 to 12,288 in version 2.
    pub fn count(&self) -> usize
        ensures value { result ≡ length (tuples_of self.now).tuples }
        ensures bound { result ≤ most_tuples self.now.version }
    {
        self.tuples.len()
    }

    /// Whether an operation may still be applied: birth numbers stay below 2 to the power of 62.
    pub fn births_left(&self) -> bool
        ensures { IsTrue result ↔ (self.now.next < 2 ^ 62) }
    {
        self.next < BIRTHS_END
    }

    /// The text of page `page`, 0 to 255: its tuples in the order of births, each as 8 bytes of birth number, high byte
    /// first, in version 2 the length of its spelling in 2 bytes, and its spelling. At most 64 * 1,034 bytes. NoMemory
    /// if memory runs out.
    pub fn page_text(&self, page: usize) -> Result<Vec<u8>, NoMemory>
        requires { page < PAGES }
        ensures { IfOk result (λ text. text.items ≡ tuple_page_text self.now page) }
    {
        self.page_text_behind(page, 0, &[])
    }

    /// The text of a page whose oldest tuples, so many, have this text. Only the others are looked at.
    pub(crate) fn page_text_behind(
        &self,
        page: usize,
        count: usize,
        front: &[u8],
    ) -> Result<Vec<u8>, NoMemory>
        requires page { page < PAGES }
        requires count { count ≤ page_count self.now.entries page }
        requires front { front.now ≡ text_of_oldest self.now page count }
        ensures { IfOk result (λ text. text.items ≡ tuple_page_text self.now page) }
    {
        let births = self.index.on_page(page);
        let others = births.split_at(count).1;
        text_behind(self.alloc, front, self.version, &self.tuples, others)
    }

    /// How many tuples lie on each page.
    pub(crate) fn page_counts(&self) -> &[u8; PAGES]
        ensures { (page : ℕ) → page < PAGES → slice_index_or result.now page 0 ≡ page_count self.now.entries page }
    {
        &self.page_counts
    }

    /// The text of the header after `number` executed batches: a byte for the version, the number and the next birth
    /// number, both in 8 bytes, high byte first.
    pub fn header_text(&self, number: u64) -> [u8; HEADER_LEN]
        ensures { result ≡ header_text self.now number }
    {
        header_of(self.version, number, self.next)
    }

    // The value of each space is a state.
    fn note_state(&self)
        ensures { IsState self.now }
    {
        let _next = self.next;
    }

    // How many tuples the version allows.
    fn limit(&self) -> usize
        ensures { result ≡ most_tuples self.now.version }
    {
        limit_of(self.version)
    }

    // Whether the version doesn't know the operation.
    fn is_unknown<A: Allocator>(&self, op: &Op<A>) -> bool
        ensures { result ≡ is_unknown self.now.version (operation_of op.now) }
    {
        match self.version {
            Version::One => op.is_version_2(),
            Version::Two => false,
        }
    }

    // Whether the space refuses the client's operation.
    fn is_refused<A: Allocator>(&self, client: u16, op: &Op<A>) -> bool
        ensures { result ≡ refuses self.now.version client (operation_of op.now) }
    {
        self.is_unknown(op) || forbids(client, op)
    }

    // Adds a copy of the tuple as the newest one. An `Err` changes nothing.
    fn insert<A: Allocator>(&mut self, tuple: &Tuple<A>) -> Result<(), NoMemory>
        requires births { self.old.next < 2 ^ 62 }
        requires room { length self.old.entries < most_tuples self.old.version }
        ensures ok { OnOk result (self.new ≡ with_birth self.old tuple.now) }
        ensures err { OnErr result (self.new ≡ self.old) }
    {
        note_tuple(tuple);
        let copy = tuple.copy_in(self.alloc)?;
        let birth = next_birth(&self.page_counts, self.next);
        self.index.insert(birth, tuple)?;
        if let Err(_) = self.tuples.insert(birth, copy) {
            self.index.remove(birth, tuple);
            return Err(NoMemory);
        }
        self.page_counts[(birth % PAGES as u64) as usize] += 1;
        self.next = birth + 1;
        Ok(())
    }

    // Adds a copy of the tuple if there is room, and says whether there was. An `Err` changes nothing.
    fn add<A: Allocator>(&mut self, tuple: &Tuple<A>) -> Result<bool, NoMemory>
        requires { self.old.next < 2 ^ 62 }
        ensures ok { OnOk result (self.new ≡ with_tuple self.old tuple.now) }
        ensures room { IfOk result (λ added. added ≡ has_room (tuples_of self.old)) }
        ensures memory { OnErr result (has_room (tuples_of self.old) ≡ true) }
        ensures err { OnErr result (self.new ≡ self.old) }
    {
        if self.count() >= self.limit() {
            return Ok(false);
        }
        self.insert(tuple)?;
        Ok(true)
    }

    /// The births, the oldest first, of the stored tuples with as many values as the template has fields, or if its
    /// first field is an actual, with the key of that number and that field. A key is a hash, so tuples of another
    /// first value may be among them. Those that the template matches are (`laws::matches_are_candidates`). Takes no
    /// memory.
    pub fn candidates<A: Allocator>(&self, template: &Template<A>) -> &[u64]
        ensures { result.now ≡ candidates_of template.now self.now }
    {
        self.index.candidates(template)
    }

    fn oldest_match<A: Allocator>(&self, template: &Template<A>) -> Option<(u64, &Tuple<Global>)>
        ensures value { IsOldest template.now self.now.entries result }
        ensures valid { IsState self.now }
    {
        let births = self.candidates(template);
        oldest_match(&self.tuples, births, template)
    }

    // Takes the tuple of this birth.
    fn remove(&mut self, birth: u64) -> Option<Tuple<Global>>
        ensures value { result ≡ lookup (is_at (nat_cmp birth)) self.old.entries }
        ensures state { self.new ≡ without_birth self.old birth }
    {
        match self.tuples.remove(birth) {
            Some(tuple) => {
                self.index.remove(birth, &tuple);
                self.page_counts[(birth % PAGES as u64) as usize] -= 1;
                Some(tuple)
            }
            None => None,
        }
    }

    // The births of the oldest matches, at most `max`. Takes no memory.
    fn oldest_births<A: Allocator>(
        &self,
        max: Max,
        template: &Template<A>,
    ) -> ArrayVec<u64, MAX_ANSWERS>
        ensures value { result.items ≡ oldest_births max.count template.now self.now.entries }
        ensures valid { IsState self.now }
    {
        let births = self.candidates(template);
        births_of_matches(&self.tuples, births, template, max)
    }

    // Takes the tuples of these births.
    fn remove_all(&mut self, births: &[u64])
        ensures { self.new ≡ without_births self.old births.now }
    {
        for birth in births {
            let _taken = self.remove(*birth);
        }
    }

    // Reads the oldest match.
    fn read<A: Allocator>(&self, template: &Template<A>) -> Result<Answer<Global>, NoMemory>
        ensures value { AnswersServed result self.now (rdp template.now) }
        ensures memory { OnErr result (WantsServed self.now (rdp template.now)) }
    {
        match self.oldest_match(template) {
            Some((_, tuple)) => Ok(Answer::Found(tuple.copy_in(self.alloc)?)),
            None => Ok(Answer::Absent),
        }
    }

    // Reads the oldest matches, at most `max`.
    fn read_all<A: Allocator>(
        &self,
        max: Max,
        template: &Template<A>,
    ) -> Result<Answer<Global>, NoMemory>
        ensures value { AnswersServed result self.now (rd_all max.count template.now) }
        ensures memory { OnErr result (WantsServed self.now (rd_all max.count template.now)) }
    {
        let births = self.candidates(template);
        let copies = copies_of_matches(self.alloc, &self.tuples, births, template, max)?;
        Ok(Answer::All(copies))
    }

    // Sees the oldest match.
    fn see<A: Allocator>(&self, template: &Template<A>) -> Seen<'_>
        ensures { outcome_seen result ≡ served_outcome (tuples_of self.now) (rdp template.now) }
    {
        match self.oldest_match(template) {
            Some((_, tuple)) => Seen::Found(tuple),
            None => Seen::Absent,
        }
    }

    // Sees the oldest matches, at most `max`.
    fn see_all<A: Allocator>(&self, max: Max, template: &Template<A>) -> Result<Seen<'_>, NoMemory>
        ensures value { ShowsServed result self.now (rd_all max.count template.now) }
        ensures memory { OnErr result (WantsServed self.now (rd_all max.count template.now)) }
    {
        let births = self.candidates(template);
        let seen = seen_matches(self.alloc, &self.tuples, births, template, max)?;
        Ok(Seen::All(seen))
    }

    // Takes the oldest match.
    fn take<A: Allocator>(&mut self, template: &Template<A>) -> Answer<Global>
        ensures value { outcome_of result ≡ served_outcome (tuples_of self.old) (inp template.now) }
        ensures state { self.new ≡ without_match self.old template.now }
    {
        let birth = match self.oldest_match(template) {
            Some((birth, _)) => birth,
            None => return Answer::Absent,
        };
        match self.remove(birth) {
            Some(tuple) => Answer::Found(tuple),
            None => Answer::Absent,
        }
    }

    // Takes the oldest matches, at most `max`. An `Err` changes nothing.
    fn take_all<A: Allocator>(
        &mut self,
        max: Max,
        template: &Template<A>,
    ) -> Result<Answer<Global>, NoMemory>
        ensures value { AnswersServed result self.old (in_all max.count template.now) }
        ensures ok { OnOk result (self.new ≡ without_matches self.old max.count template.now) }
        ensures memory { OnErr result (WantsServed self.old (in_all max.count template.now)) }
        ensures err { OnErr result (self.new ≡ self.old) }
    {
        // It copies all first, so that it takes none if memory runs out.
        let answer = self.read_all(max, template)?;
        let births = self.oldest_births(max, template);
        self.remove_all(births.as_slice());
        Ok(answer)
    }

    // Makes the space one of version 2.
    fn upgrade(&mut self)
        ensures { self.new ≡ upgraded self.old }
    {
        self.version = Version::Two;
    }

    fn has_match<A: Allocator>(&self, template: &Template<A>) -> bool
        ensures { result ≡ is_some (first_match template.now (tuples_of self.now)) }
    {
        self.oldest_match(template).is_some()
    }

    // Adds a copy of the tuple if nothing matches.
    fn swap<A: Allocator>(
        &mut self,
        template: &Template<A>,
        tuple: &Tuple<A>,
    ) -> Result<Answer<Global>, NoMemory>
        requires { self.old.next < 2 ^ 62 }
        ensures value { AnswersServed result self.old (cas template.now tuple.now) }
        ensures ok { OnOk result (FollowsServed self.old self.new (cas template.now tuple.now)) }
        ensures memory { OnErr result (WantsServed self.old (cas template.now tuple.now)) }
        ensures err { OnErr result (self.new ≡ self.old) }
    {
        if self.has_match(template) {
            return Ok(Answer::Swapped(false));
        }
        if self.add(tuple)? {
            Ok(Answer::Swapped(true))
        } else {
            Ok(Answer::Full)
        }
    }

    /// Applies an operation of a client. Client 0 alone may upgrade the space. The space copies each tuple that it adds
    /// or reads. `inp` hands out the tuple itself, and `inAll` copies the tuples before it takes them. NoMemory comes
    /// only if there is a tuple to copy. It changes nothing.
    pub fn apply<A: Allocator>(
        &mut self,
        client: u16,
        op: &Op<A>,
    ) -> Result<Answer<Global>, NoMemory>
        requires { self.old.next < 2 ^ 62 }
        ensures answer { AnswersOperation result self.old client (operation_of op.now) }
        ensures state { OnOk result (StateFollows self.old self.new client (operation_of op.now)) }
        ensures tuples { OnOk result (TuplesFollow self.old self.new client (operation_of op.now)) }
        ensures valid { IsState self.new }
        ensures next { self.new.next ≤ self.old.next + PAGES }
        ensures memory { OnErr result (WantsMemory self.old (operation_of op.now)) }
        ensures err { OnErr result (self.new ≡ self.old) }
    {
        let result = self.answer(client, op);
        self.note_state();
        result
    }

    /// Adds the pages on which the operation may change more than add a tuple to a set of pages. Takes no memory.
    pub(crate) fn mark_changed<A: Allocator>(
        &self,
        client: u16,
        op: &Op<A>,
        pages: &mut [bool; PAGES],
    )
        ensures { MarksChanged self.now client (operation_of op.now) pages.old pages.new }
    {
        if self.is_refused(client, op) {
            return;
        }
        match op {
            Op::Inp(template) => {
                if let Some((birth, _)) = self.oldest_match(template) {
                    add_page(pages, (birth % PAGES as u64) as usize);
                }
            }
            Op::InAll(max, template) => {
                let births = self.oldest_births(*max, template);
                add_pages(pages, births.as_slice());
            }
            Op::Upgrade => add_all_pages(pages),
            Op::Out(_) | Op::Cas(_, _) | Op::Rdp(_) | Op::RdAll(_, _) => {}
        }
    }

    fn answer<A: Allocator>(&mut self, client: u16, op: &Op<A>) -> Result<Answer<Global>, NoMemory>
        requires { self.old.next < 2 ^ 62 }
        ensures answer { AnswersOperation result self.old client (operation_of op.now) }
        ensures state { OnOk result (StateFollows self.old self.new client (operation_of op.now)) }
        ensures memory { OnErr result (WantsMemory self.old (operation_of op.now)) }
        ensures err { OnErr result (self.new ≡ self.old) }
    {
        if self.is_refused(client, op) {
            return Ok(Answer::Refused);
        }
        self.serve(op)
    }

    // Answers an operation that is not refused.
    fn serve<A: Allocator>(&mut self, op: &Op<A>) -> Result<Answer<Global>, NoMemory>
        requires { self.old.next < 2 ^ 62 }
        ensures answer { AnswersServed result self.old (operation_of op.now) }
        ensures state { OnOk result (FollowsServed self.old self.new (operation_of op.now)) }
        ensures memory { OnErr result (WantsServed self.old (operation_of op.now)) }
        ensures err { OnErr result (self.new ≡ self.old) }
    {
        match op {
            Op::Out(tuple) => {
                if self.add(tuple)? {
                    Ok(Answer::Done)
                } else {
                    Ok(Answer::Full)
                }
            }
            Op::Rdp(template) => self.read(template),
            Op::Inp(template) => Ok(self.take(template)),
            Op::Cas(template, tuple) => self.swap(template, tuple),
            Op::RdAll(max, template) => self.read_all(*max, template),
            Op::InAll(max, template) => self.take_all(*max, template),
            Op::Upgrade => {
                self.upgrade();
                Ok(Answer::Done)
            }
        }
    }

    /// Answers an operation that changes nothing, of any client. It refuses any other before it takes memory. NoMemory
    /// comes only if there is a match to copy.
    pub fn peek<A: Allocator>(&self, op: &Op<A>) -> Result<Answer<Global>, PeekFault>
        ensures answer { AnswersAnyone result self.now (operation_of op.now) }
        ensures not_read_only { RefusesChanges result (operation_of op.now) }
        ensures memory { LacksMemory result → WantsMemory self.now (operation_of op.now) }
        ensures valid { IsState self.now }
    {
        self.note_state();
        if !op.is_read() {
            return Err(PeekFault::NotReadOnly);
        }
        if self.is_unknown(op) {
            return Ok(Answer::Refused);
        }
        self.serve_read(op)
    }

    // Answers an operation that changes nothing and is not refused.
    fn serve_read<A: Allocator>(&self, op: &Op<A>) -> Result<Answer<Global>, PeekFault>
        ensures answer { AnswersServed result self.now (operation_of op.now) }
        ensures not_read_only { RefusesChanges result (operation_of op.now) }
        ensures memory { LacksMemory result → WantsServed self.now (operation_of op.now) }
    {
        match op {
            Op::Rdp(template) => Ok(self.read(template)?),
            Op::RdAll(max, template) => Ok(self.read_all(*max, template)?),
            Op::Out(_) | Op::Inp(_) | Op::Cas(_, _) | Op::InAll(_, _) | Op::Upgrade => {
                Err(PeekFault::NotReadOnly)
            }
        }
    }

    /// The same as [`Space::peek`], but for the copies: the tuples lie in the space. It is all that [`Space::apply`]
    /// would answer and leave. NoMemory comes only if there are matches to list.
    pub fn look<A: Allocator>(&self, op: &Op<A>) -> Result<Seen<'_>, PeekFault>
        ensures answer { ShowsAnyone result self.now (operation_of op.now) }
        ensures state { OnOk result (StaysAsAsked self.now (operation_of op.now)) }
        ensures not_read_only { RefusesChanges result (operation_of op.now) }
        ensures memory { LacksMemory result → WantsMemory self.now (operation_of op.now) }
        ensures valid { IsState self.now }
    {
        self.note_state();
        let reads = op.is_read();
        if !reads {
            return Err(PeekFault::NotReadOnly);
        }
        if self.is_unknown(op) {
            return Ok(Seen::Refused);
        }
        self.look_known(op)
    }

    // Shows the answer to an operation that changes nothing and is not refused.
    fn look_known<A: Allocator>(&self, op: &Op<A>) -> Result<Seen<'_>, PeekFault>
        ensures answer { ShowsServed result self.now (operation_of op.now) }
        ensures not_read_only { RefusesChanges result (operation_of op.now) }
        ensures memory { LacksMemory result → WantsServed self.now (operation_of op.now) }
    {
        match op {
            Op::Rdp(template) => Ok(self.see(template)),
            Op::RdAll(max, template) => Ok(self.see_all(*max, template)?),
            _ => Err(PeekFault::NotReadOnly),
        }
    }
}

// Adds a page to a set of pages.
fn add_page(pages: &mut [bool; PAGES], page: usize)
    requires { page < PAGES }
    ensures { pages.new ≡ slice_set pages.old page true }
{
    pages[page] = true;
}

// Adds all pages to a set of pages.
fn add_all_pages(pages: &mut [bool; PAGES])
    ensures { pages.new ≡ with_pages pages.old (range_with_len 0 PAGES) }
{
    for page in 0..PAGES {
        add_page(pages, page);
    }
}

// Adds the pages of these births to a set of pages.
fn add_pages(pages: &mut [bool; PAGES], births: &[u64])
    ensures { pages.new ≡ with_pages pages.old births.now }
{
    for birth in births {
        add_page(pages, (*birth % PAGES as u64) as usize);
    }
}

// How many tuples a version allows.
fn limit_of(version: Version) -> usize
    ensures { result ≡ most_tuples version }
{
    match version {
        Version::One => MAX_TUPLES,
        Version::Two => MAX_TUPLES_V2,
    }
}

// Whether the client may not do the operation.
fn forbids<A: Allocator>(client: u16, op: &Op<A>) -> bool
    ensures { result ≡ is_forbidden client (operation_of op.now) }
{
    match op {
        Op::Upgrade => client != 0,
        _ => false,
    }
}

// Each tuple that the program holds is within the limits.
fn note_tuple<A: Allocator>(tuple: &Tuple<A>)
    ensures { IsTuple tuple.now }
{
    let _depth = tuple.depth();
}
