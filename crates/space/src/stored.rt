//! The stored tuples.

ghost use Rattle.std.specs.Prelude.{◌≡◌, ◌<◌, [], length, All, AllPairs, vec_len, vec_capacity, OnOk, OnErr, IfOk};
ghost use Rattle.std.specs.Prelude.{IfNone, IsTrue};
ghost use Rattle.std.specs.Option.{option_copied};
ghost use Rattle.std.specs.Ordering.{nat_cmp};
ghost use Rattle.std.specs.Map.{lookup, remove_entry};
ghost use Rattle.std.specs.BTreeMap.{is_at, insert_entry};
ghost use Rattle.space.specs.Prints.{HasOtherLabel};
ghost use Rattle.space.specs.Stored.{LiesAt, LeadsTo};

use crate::place_table::PlaceTable;
use crate::prints::{Label, Wanted, is_of, is_of_other, label_of};
use std::alloc::Global;
use std::collections::BTreeMap;
use std::marker::Model;
use terms::NoMemory;
use tuple_tree::Tuple;

/// The stored tuples. One is found by its birth, in the same time however many there are. If births are asked for in
/// the order in which their tuples were put in, mostly each lies behind the one before.
#[derive(Drop)]
pub struct Stored {
    // In the order in which they were put in, but for the last one, which takes the place of one that is taken.
    entries: Vec<(u64, Tuple<Global>)>,
    // The label of each tuple. Most that don't match are told by it, and not looked at.
    labels: Vec<Label>,
    // Where the tuple of a birth lies. Each place is looked at before it is believed.
    places: PlaceTable,
}

impl Model for Stored {
    ghost use Rattle.space.specs.Stored.{StoredTuples, stored_code, in_order, AreLabelled};

    ghost Value = { StoredTuples };

    ghost coded = { stored_code };

    ghost view = { λ a. record { entries = in_order a.entries.items } };

    ghost invariant = { λ a. AreLabelled a.entries.items a.labels.items };
}

impl Stored {
    /// No tuples. Takes no memory.
    pub fn new(alloc: Global) -> Stored
        ensures empty { result.entries ≡ [] }
    {
        Stored {
            entries: Vec::new(alloc),
            labels: Vec::new(alloc),
            places: PlaceTable::new(alloc),
        }
    }

    /// The tuples of a map by births.
    pub fn of(alloc: Global, tuples: BTreeMap<u64, Tuple<Global>>) -> Result<Stored, NoMemory>
        requires { AllPairs (λ e f. e.0 < f.0) tuples.entries }
        ensures { IfOk result (λ stored. stored.entries ≡ tuples.entries) }
    {
        let mut stored = Stored::new(alloc);
        for (birth, tuple) in tuples {
            stored.insert(birth, tuple)?;
        }
        Ok(stored)
    }

    /// How many there are.
    pub fn len(&self) -> usize
        ensures { result ≡ length self.now.entries }
    {
        self.entries.len()
    }

    /// The tuple of a birth.
    pub fn get(&self, birth: u64) -> Option<&Tuple<Global>>
        ensures value { option_copied result ≡ lookup (is_at (nat_cmp birth)) self.now.entries }
    {
        let mut near = 0;
        self.get_near(birth, &mut near)
    }

    /// The tuple of a birth. It is looked for at the place `near` first, which then is the place behind it.
    #[inline(always)]
    pub fn get_near(&self, birth: u64, near: &mut usize) -> Option<&Tuple<Global>>
        ensures value { option_copied result ≡ lookup (is_at (nat_cmp birth)) self.now.entries }
    {
        match place_of(self.entries.as_slice(), &self.places, birth, *near) {
            Some(place) => {
                *near = place.saturating_add(1);
                Some(&self.entries[place].1)
            }
            None => None,
        }
    }

    /// Turns to the place that was noted for a birth, unless its tuple lies at the place `near`.
    pub fn turn_to(&self, birth: u64, near: &mut usize) {
        match self.labels.get(*near) {
            Some(label) if is_of(label, birth) => {}
            _ => *near = self.places.near(birth),
        }
    }

    /// Passes the tuple of a birth if it lies at the place `near`, and its label isn't the wanted
    /// wanted. Then `near` is the place behind it.
    pub fn passes(&self, birth: u64, near: &mut usize, wanted: &Wanted) -> bool
        ensures { IsTrue result → HasOtherLabel wanted.now birth self.now.entries }
    {
        let place = *near;
        match self.labels.get(place) {
            Some(label) => {
                if !is_of_other(label, birth, wanted) {
                    return false;
                }
                *near = place.saturating_add(1);
                true
            }
            None => false,
        }
    }

    /// Puts a tuple in at a birth above all others. An `Err` changes nothing.
    pub fn insert(&mut self, birth: u64, tuple: Tuple<Global>) -> Result<(), NoMemory>
        requires { All (λ e. e.0 < birth) self.old.entries }
        ensures entries { OnOk result
            (self.new.entries ≡ insert_entry nat_cmp self.old.entries birth tuple) }
        ensures err { OnErr result (self.new ≡ self.old) }
    {
        make_room(&mut self.entries, &mut self.labels)?;
        let place = self.entries.len();
        self.labels.push_reserved(label_of(birth, &tuple));
        self.entries.push_reserved((birth, tuple));
        self.places.note(birth, place, self.entries.as_slice());
        Ok(())
    }

    /// Takes the tuple of a birth.
    pub fn remove(&mut self, birth: u64) -> Option<Tuple<Global>>
        ensures value { result ≡ lookup (is_at (nat_cmp birth)) self.old.entries }
        ensures entries { self.new.entries ≡ remove_entry (is_at (nat_cmp birth)) self.old.entries }
        ensures absent { IfNone result (self.new ≡ self.old) }
    {
        match place_of(self.entries.as_slice(), &self.places, birth, 0) {
            Some(place) => {
                let (_, tuple) = self.entries.swap_remove(place);
                self.labels.swap_remove(place);
                move_place(&mut self.places, birth, self.entries.as_slice(), place);
                Some(tuple)
            }
            None => None,
        }
    }
}

// Makes room for one more entry and its label.
fn make_room(
    entries: &mut Vec<(u64, Tuple<Global>)>,
    labels: &mut Vec<Label>,
) -> Result<(), NoMemory>
    ensures entries { entries.new.items ≡ entries.old.items }
    ensures labels { labels.new.items ≡ labels.old.items }
    ensures room { OnOk result (vec_len entries.new < vec_capacity entries.new) }
    ensures labels_room { OnOk result (vec_len labels.new < vec_capacity labels.new) }
{
    entries.reserve(1)?;
    Ok(labels.reserve(1)?)
}

// Forgets a birth, and notes which entry lies at its place now.
fn move_place(places: &mut PlaceTable, birth: u64, entries: &[(u64, Tuple<Global>)], place: usize) {
    places.forget(birth);
    if place < entries.len() {
        places.note(entries[place].0, place, entries);
    }
}

// The place of a birth's entry, which is mostly `near`. Always inlined, so that a walk along the entries in their order
// calls nothing for it.
#[inline(always)]
fn place_of(
    entries: &[(u64, Tuple<Global>)],
    places: &PlaceTable,
    birth: u64,
    near: usize,
) -> Option<usize>
    ensures { LeadsTo result birth entries.now }
{
    if lies_at(entries, birth, near) {
        return Some(near);
    }
    noted_place(entries, places, birth)
}

// The place of a birth's entry, which is mostly the one that was noted.
#[inline(never)]
fn noted_place(entries: &[(u64, Tuple<Global>)], places: &PlaceTable, birth: u64) -> Option<usize>
    ensures { LeadsTo result birth entries.now }
{
    let place = places.near(birth);
    if lies_at(entries, birth, place) {
        return Some(place);
    }
    match places.other(birth) {
        Some(place) => {
            if lies_at(entries, birth, place) {
                return Some(place);
            }
            search(entries, birth)
        }
        None => search(entries, birth),
    }
}

// Whether the entry at this place has this birth.
fn lies_at(entries: &[(u64, Tuple<Global>)], birth: u64, place: usize) -> bool
    ensures { IsTrue result → LiesAt entries.now birth place }
{
    place < entries.len() && entries[place].0 == birth
}

// The place of a birth's entry, of which no place was noted.
fn search(entries: &[(u64, Tuple<Global>)], birth: u64) -> Option<usize>
    ensures { LeadsTo result birth entries.now }
{
    for place in 0..entries.len() {
        if entries[place].0 == birth {
            return Some(place);
        }
    }
    None
}
