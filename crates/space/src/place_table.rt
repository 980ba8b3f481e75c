//! Where stored tuples lie.

use std::alloc::Global;
use std::collections::HashMap;
use tuple_tree::Tuple;

// At first so many places are kept, in few bytes: most replicas have few tuples.
const LEAST: usize = 256;

// At most so many are kept, a power of two well above the number of tuples.
const MOST: usize = 32768;

/// Where the tuple of a birth probably lies. Who asks for a place has to look whether the tuple lies there.
#[derive(Drop)]
pub struct PlaceTable {
    // By the remainder of a birth, the place that was noted last. So a look-up reads one line of memory. Their number
    // is a power of two, which grows if two births have one remainder.
    near: Vec<u16>,
    // The places of births that lost their remainder to another one when there were as many as may be.
    others: HashMap<u64, usize>,
}

impl PlaceTable {
    /// No places. Takes no memory.
    pub fn new(alloc: Global) -> PlaceTable {
        PlaceTable {
            near: Vec::new(alloc),
            others: HashMap::new(alloc),
        }
    }

    /// The place that was noted for a birth, or for another one since.
    pub fn near(&self, birth: u64) -> usize {
        let slot = self.slot_of(birth);
        if slot < self.near.len() {
            self.near[slot] as usize
        } else {
            0
        }
    }

    /// The place of a birth that lost its remainder.
    pub fn other(&self, birth: u64) -> Option<usize> {
        match self.others.get(&birth) {
            Some(place) => Some(*place),
            None => None,
        }
    }

    /// Notes the place of a birth among the entries. If memory runs out, some place isn't noted.
    pub fn note(&mut self, birth: u64, place: usize, entries: &[(u64, Tuple<Global>)]) {
        if self.near.is_empty() {
            let _ = self.near.resize(LEAST, 0);
        }
        if let Some((other, its_place)) = self.rival(birth, entries) {
            self.reach(len_apart(birth, other), entries);
            if self.slot_of(other) == self.slot_of(birth) {
                let _ = self.others.insert(other, its_place);
            }
        }
        self.put(birth, place);
    }

    /// Forgets a birth that has no tuple any more.
    pub fn forget(&mut self, birth: u64) {
        if !self.others.is_empty() {
            self.others.remove(&birth);
        }
    }

    fn slot_of(&self, birth: u64) -> usize {
        birth as usize & self.near.len().saturating_sub(1)
    }

    // Another birth that has the same remainder, and its place, if it still lies there.
    fn rival(&self, birth: u64, entries: &[(u64, Tuple<Global>)]) -> Option<(u64, usize)> {
        let place = self.near(birth);
        if place >= entries.len() {
            return None;
        }
        let other = entries[place].0;
        if other != birth && self.slot_of(other) == self.slot_of(birth) {
            Some((other, place))
        } else {
            None
        }
    }

    // Keeps so many places, if that is more than before.
    fn reach(&mut self, len: usize, entries: &[(u64, Tuple<Global>)]) {
        if len <= self.near.len() || self.near.resize(len, 0).is_err() {
            return;
        }
        for place in 0..entries.len() {
            self.put(entries[place].0, place);
        }
    }

    fn put(&mut self, birth: u64, place: usize) {
        let slot = self.slot_of(birth);
        if slot < self.near.len() && place <= u16::MAX as usize {
            self.near[slot] = place as u16;
        } else {
            let _ = self.others.insert(birth, place);
        }
    }
}

// How many places there have to be so that two births have different remainders, or the most.
fn len_apart(birth: u64, other: u64) -> usize {
    let same = (birth ^ other).trailing_zeros();
    if same < MOST.trailing_zeros() {
        2 << same
    } else {
        MOST
    }
}
