//! The sets P and Q of a replica, for its own view changes.

ghost use Rattle.std.specs.Prelude.{◌≡◌, ◌∷◌, ◌≤◌, filter, length, map, nat_lt, IfOk, OnOk, OnErr, IsTrue};
ghost use Rattle.std.specs.Arc.{arc_value};
ghost use Rattle.sha2.specs.Sha256.{sha256};
ghost use Rattle.wire_format.specs.Lists.{Each, ascends};
ghost use Rattle.wire_format.specs.Spelling.{batch_entry_before, named_before};
ghost use Rattle.wire_format.specs.Views.{batch_entry_data};
ghost use Rattle.pq_sets.specs.PqSetsView as spec;
ghost use Rattle.pq_sets.specs.PqSetsView.{pq_entries_of, digests_of, texts_in, IsAmongTexts};
ghost use Rattle.pq_sets.specs.Places as places;
ghost use Rattle.pq_sets.specs.Recording as recording;

use crate::digests::is_less;
use crate::pq_entry::{PqEntry, PqOrder};
use ordering::HashedBatch;
use std::alloc::Global;
use std::marker::Model;
use std::sync::Arc;
use terms::{NoMemory, Number, View};
use wire::BatchEntry;

/// The batches that a replica prepared or logged, over all views, for the numbers within its marks: for each number the
/// batch that was prepared in the latest view, and each logged batch, with the latest view in which it was logged. Both
/// lists have the order of a view change, by number and then by digest, and each entry has its batch.
///
/// P has at most as many entries as there are numbers within the marks, 32. Q has at most one for each of these numbers
/// and each view in which the replica was active.
///
/// Liars can't make these views many. A replica becomes active in a later view only by a new view, which carries the
/// signed view changes of 2f + 1 replicas for that view. With f liars, up to 3, at least f + 1 of these are of the 2f +
/// 1 others, each of which signs 64 messages in all. So there are at most 112 new views, and Q has at most 113 * 32
/// entries, which fit a frame.
#[derive(Drop)]
pub struct PqSets {
    prepared: Vec<PqEntry>,
    logged: Vec<PqEntry>,
}

impl Model for PqSets {
    ghost use Rattle.pq_sets.specs.PqSetsView.{PqSetsData, pq_sets_data, ArePqSets};

    ghost Value = { PqSetsData };

    ghost view = { pq_sets_data };

    ghost invariant = { λ c. ArePqSets (pq_sets_data c) };
}

impl PqSets {
    /// The empty sets.
    pub fn new(alloc: Global) -> PqSets
        ensures { result ≡ spec.empty_pq_sets }
    {
        PqSets {
            prepared: Vec::new(alloc),
            logged: Vec::new(alloc),
        }
    }

    /// Notes that a batch is prepared in a view. For a number the latest view is kept.
    ///
    /// # Errors
    ///
    /// NoMemory if memory runs out; nothing is noted then.
    pub fn note_prepared(
        &mut self,
        number: Number,
        view: View,
        batch: Arc<HashedBatch>,
    ) -> Result<(), NoMemory>
        ensures ok { OnOk result (self.new ≡ record self.old {
          prepared = recording.with_prepared (spec.pq_entry_of number.0 view.0 (arc_value batch)) self.old.prepared;
        }) }
        ensures err { OnErr result (self.new ≡ self.old) }
    {
        add(
            &mut self.prepared,
            PqOrder::Number,
            pq_entry(number, view, batch),
        )
    }

    /// Notes that a batch is logged in a view. For a number and digest the latest view is kept.
    ///
    /// # Errors
    ///
    /// NoMemory if memory runs out; nothing is noted then.
    pub fn note_logged(
        &mut self,
        number: Number,
        view: View,
        batch: Arc<HashedBatch>,
    ) -> Result<(), NoMemory>
        ensures logged { OnOk result (self.new.logged
            ≡ recording.with_logged (spec.pq_entry_of number.0 view.0 (arc_value batch)) self.old.logged) }
        ensures prepared { OnOk result (self.new.prepared ≡ self.old.prepared) }
        ensures texts { OnOk result (Each (IsAmongTexts (arc_value batch ∷ self.old.texts)) self.new.texts) }
        ensures err { OnErr result (self.new ≡ self.old) }
    {
        add(
            &mut self.logged,
            PqOrder::NumberAndDigest,
            pq_entry(number, view, batch),
        )
    }

    /// Drops the entries of the numbers up to the low mark.
    pub fn cut(&mut self, low: Number)
        ensures prepared { self.new.prepared ≡ recording.above_mark low.0 self.old.prepared }
        ensures logged { self.new.logged ≡ recording.above_mark low.0 self.old.logged }
        ensures texts { Each (IsAmongTexts self.old.texts) self.new.texts }
    {
        keep_above(&mut self.prepared, low);
        keep_above(&mut self.logged, low);
    }

    /// The set P: the list of prepared batches for a view change. NoMemory if memory runs out.
    pub fn prepared(&self, alloc: Global) -> Result<Vec<BatchEntry>, NoMemory>
        ensures are { IfOk result (λ entries. map batch_entry_data entries.items ≡ self.now.prepared) }
        ensures order { IsTrue (ascends batch_entry_before self.now.prepared) }
    {
        entries(alloc, &self.prepared)
    }

    /// The set Q: the list of logged batches for a view change. NoMemory if memory runs out.
    pub fn logged(&self, alloc: Global) -> Result<Vec<BatchEntry>, NoMemory>
        ensures are { IfOk result (λ entries. map batch_entry_data entries.items ≡ self.now.logged) }
        ensures order { IsTrue (ascends named_before self.now.logged) }
    {
        entries(alloc, &self.logged)
    }

    /// The logged batches, for a selection: one of the digest of each entry. NoMemory if memory runs out.
    pub fn batches(&self, alloc: Global) -> Result<Vec<Arc<HashedBatch>>, NoMemory>
        ensures are { IfOk result (λ batches. map arc_value batches.items ≡ self.now.texts) }
        ensures named { map sha256 self.now.texts ≡ digests_of self.now.logged }
    {
        batches(alloc, &self.logged)
    }
}

fn pq_entry(number: Number, view: View, batch: Arc<HashedBatch>) -> PqEntry
    ensures pq_entry { spec.pq_entry_data result ≡ spec.pq_entry_of number.0 view.0 (arc_value batch) }
    ensures text { arc_value result.batch ≡ arc_value batch }
{
    let digest = batch.digest();
    let entry = BatchEntry {
        number,
        digest,
        view,
    };
    PqEntry { entry, batch }
}

fn comes_before(order: PqOrder, one: &BatchEntry, other: &BatchEntry) -> bool
    ensures { result ≡ places.before_by order (batch_entry_data one.now) (batch_entry_data other.now) }
{
    match order {
        PqOrder::Number => one.number.0 < other.number.0,
        PqOrder::NumberAndDigest => {
            one.number.0 < other.number.0
                || (one.number.0 == other.number.0 && is_less(&one.digest, &other.digest))
        }
    }
}

fn names_same(order: PqOrder, one: &BatchEntry, other: &BatchEntry) -> bool
    ensures { result ≡ places.same_by order (batch_entry_data one.now) (batch_entry_data other.now) }
{
    match order {
        PqOrder::Number => one.number.0 == other.number.0,
        PqOrder::NumberAndDigest => { one.number.0 == other.number.0 && one.digest == other.digest }
    }
}

// The place of an entry: before the first that names the same or comes after.
fn place_of(pq_set: &[PqEntry], order: PqOrder, entry: &BatchEntry) -> usize
    ensures place { result ≡ places.place_in order (batch_entry_data entry.now) (pq_entries_of pq_set.now) }
    ensures within { result ≤ length pq_set.now }
{
    for (place, pq_entry) in pq_set.iter().enumerate() {
        if names_same(order, &pq_entry.entry, entry)
            || comes_before(order, entry, &pq_entry.entry)
        {
            return place;
        }
    }
    pq_set.len()
}

// Whether an entry that names the same stands at the place.
fn is_same_at(pq_set: &[PqEntry], place: usize, order: PqOrder, entry: &BatchEntry) -> bool
    ensures { result ≡ places.same_at order (batch_entry_data entry.now) place (pq_entries_of pq_set.now) }
{
    place < pq_set.len() && names_same(order, &pq_set[place].entry, entry)
}

// Puts an entry in its place, unless a later one names the same.
fn add(pq_set: &mut Vec<PqEntry>, order: PqOrder, pq_entry: PqEntry) -> Result<(), NoMemory>
    ensures ok { OnOk result (pq_entries_of pq_set.new.items
        ≡ places.with_pq_entry_by order (spec.pq_entry_data pq_entry) (pq_entries_of pq_set.old.items)) }
    ensures texts { OnOk result (Each (IsAmongTexts (arc_value pq_entry.batch ∷ texts_in pq_set.old.items))
        (texts_in pq_set.new.items)) }
    ensures err { OnErr result (pq_set.new.items ≡ pq_set.old.items) }
{
    let place = place_of(pq_set, order, &pq_entry.entry);
    if !is_same_at(pq_set, place, order, &pq_entry.entry) {
        pq_set.insert(place, pq_entry)?;
        return Ok(());
    }
    if pq_set[place].entry.view.0 <= pq_entry.entry.view.0 {
        pq_set[place] = pq_entry;
    }
    Ok(())
}

fn keep_above(pq_set: &mut Vec<PqEntry>, low: Number)
    ensures pq_set { pq_entries_of pq_set.new.items ≡ recording.above_mark low.0 (pq_entries_of pq_set.old.items) }
    ensures texts { Each (IsAmongTexts (texts_in pq_set.old.items)) (texts_in pq_set.new.items) }
{
    pq_set.retain(|pq_entry| low.0 < pq_entry.entry.number.0);
}

fn entries(alloc: Global, pq_set: &[PqEntry]) -> Result<Vec<BatchEntry>, NoMemory>
    ensures { IfOk result (λ entries. map batch_entry_data entries.items ≡ pq_entries_of pq_set.now) }
{
    let mut entries = Vec::with_capacity(alloc, pq_set.len())?;
    for pq_entry in pq_set {
        entries.push(pq_entry.entry)?;
    }
    Ok(entries)
}

fn batches(alloc: Global, pq_set: &[PqEntry]) -> Result<Vec<Arc<HashedBatch>>, NoMemory>
    ensures { IfOk result (λ batches. map arc_value batches.items ≡ texts_in pq_set.now) }
{
    let mut batches = Vec::with_capacity(alloc, pq_set.len())?;
    for pq_entry in pq_set {
        batches.push(Arc::try_clone(&pq_entry.batch)?)?;
    }
    Ok(batches)
}
