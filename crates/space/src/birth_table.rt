//! Lists of births by small numbers.

ghost use Rattle.std.specs.Prelude.{◌≡◌, ◌<◌, [], ℕ, vec_len, OnOk};
ghost use Rattle.space.specs.Filing.{births_in, room_in, AddsInTable, TakesFromTable, KeepsTable};

use crate::birth_list::BirthList;
use std::alloc::Global;
use terms::NoMemory;

/// A list of births for each number from 0 to the greatest one that had room for a birth. Each keeps its room.
#[derive(Drop)]
pub struct BirthTable {
    alloc: Global,
    lists: Vec<BirthList>,
}

impl BirthTable {
    /// No births. Takes no memory.
    pub fn new(alloc: Global) -> BirthTable
        ensures { (n : ℕ) → births_in result n ≡ [] }
    {
        BirthTable {
            alloc,
            lists: Vec::new(alloc),
        }
    }

    /// The births of a number, the oldest first.
    pub fn get(&self, number: usize) -> &[u64]
        ensures { result.now ≡ births_in self.now number }
    {
        if number < self.lists.len() {
            self.lists[number].as_slice()
        } else {
            &[]
        }
    }

    /// Makes room for one more birth at a number. The listed births stay, also at an `Err`.
    pub fn reserve(&mut self, number: usize) -> Result<(), NoMemory>
        ensures ok { OnOk result (0 < room_in self.new number) }
        ensures births { KeepsTable self.old self.new }
    {
        self.reach(number)?;
        self.lists[number].reserve()
    }

    // Adds empty lists up to this number.
    fn reach(&mut self, number: usize) -> Result<(), NoMemory>
        ensures ok { OnOk result (number < vec_len self.new.lists) }
        ensures births { KeepsTable self.old self.new }
    {
        while self.lists.len() <= number {
            self.lists.push(BirthList::new(self.alloc))?;
        }
        Ok(())
    }

    /// Adds a birth, the newest one, into room that was reserved.
    pub fn add(&mut self, number: usize, birth: u64)
        requires { 0 < room_in self.old number }
        ensures { AddsInTable number birth self.old self.new }
    {
        self.lists[number].push(birth);
    }

    /// Takes a birth from those of a number.
    pub fn remove(&mut self, number: usize, birth: u64)
        ensures { TakesFromTable number birth self.old self.new }
    {
        if number < self.lists.len() {
            self.lists[number].remove(birth);
        }
    }
}
