//! Births in order of age.

ghost use Rattle.std.specs.Prelude.{◌≡◌, ◌<◌, ◌++◌, ◌∷◌, [], length, remove, OnOk, IfOk};
ghost use Rattle.space.specs.Ages.{births_without, AreRising};

use std::alloc::Global;
use std::marker::Model;
use terms::NoMemory;

/// Births, the oldest first. Taking the oldest moves no other.
#[derive(Drop)]
pub struct BirthList {
    births: Vec<u64>,
    // How many of them were taken from the front.
    taken: usize,
}

impl Model for BirthList {
    ghost use Rattle.space.specs.Ages.{ListedBirths, listed_code};

    ghost Value = { ListedBirths };

    ghost coded = { listed_code };

    ghost use Rattle.std.specs.Prelude.{◌≤◌, length};
    ghost use Rattle.space.specs.BirthListView.{listed_births};

    ghost view = { listed_births };

    ghost invariant = { λ a. a.taken ≤ length a.births.items };
}

impl BirthList {
    /// The list of no births. Takes no memory.
    pub fn new(alloc: Global) -> BirthList
        ensures { result.births ≡ [] }
    {
        BirthList {
            births: Vec::new(alloc),
            taken: 0,
        }
    }

    /// The list of no births, with room for one.
    pub fn with_room(alloc: Global) -> Result<BirthList, NoMemory>
        ensures births { IfOk result (λ list. list.births ≡ []) }
        ensures room { IfOk result (λ list. 0 < list.room) }
    {
        let mut births = Vec::new(alloc);
        births.reserve(1)?;
        Ok(BirthList { births, taken: 0 })
    }

    /// The births.
    pub fn as_slice(&self) -> &[u64]
        ensures { result.now ≡ self.now.births }
    {
        &self.births[self.taken..]
    }

    /// Makes room for one more birth.
    pub fn reserve(&mut self) -> Result<(), NoMemory>
        ensures births { self.new.births ≡ self.old.births }
        ensures ok { OnOk result (0 < self.new.room) }
    {
        Ok(self.births.reserve(1)?)
    }

    /// Adds a birth at the end, into room that was reserved.
    pub fn push(&mut self, birth: u64)
        requires { 0 < self.old.room }
        ensures { self.new.births ≡ self.old.births ++ birth ∷ [] }
    {
        self.births.push_reserved(birth);
    }

    /// Takes a birth, if the list has it.
    pub fn remove(&mut self, birth: u64)
        ensures { AreRising self.old.births → self.new.births ≡ births_without birth self.old.births }
    {
        let births = self.as_slice();
        let place = births.partition_point(|other| *other < birth);
        if place >= births.len() || births[place] != birth {
            return;
        }
        self.remove_at(place);
    }

    // Takes the birth at this place. The shorter side moves.
    fn remove_at(&mut self, place: usize)
        requires { place < length self.old.births }
        ensures { self.new.births ≡ remove self.old.births place }
    {
        if place >= self.as_slice().len() / 2 {
            self.births.remove(self.taken + place);
        } else {
            self.move_up(place);
            self.trim();
        }
    }

    // Moves the births before this place up over the one there.
    fn move_up(&mut self, place: usize)
        requires { place < length self.old.births }
        ensures { self.new.births ≡ remove self.old.births place }
    {
        self.births[self.taken..self.taken + place + 1].rotate_right(1);
        self.taken += 1;
    }

    // Drops the places of the taken births once they are more than half of all places.
    fn trim(&mut self)
        ensures { self.new.births ≡ self.old.births }
    {
        if self.taken > self.births.len() / 2 {
            let left = self.births.len() - self.taken;
            self.births.copy_within(self.taken.., 0);
            self.births.truncate(left);
            self.taken = 0;
        }
    }
}
