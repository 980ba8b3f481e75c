//! Lists of births by keys.

ghost use Rattle.std.specs.Prelude.{◌≡◌, [], ℕ, false, OnOk, OnErr, IsTrue};
ghost use Rattle.space.specs.Filing.{births_at, AddsBirth, TakesBirth, KeepsBirths, LetsGo};

use crate::key_births::KeyBirths;
use std::alloc::Global;
use std::collections::HashMap;
use terms::NoMemory;

/// A list of births for each key that has births.
#[derive(Drop)]
pub struct Lists {
    alloc: Global,
    lists: HashMap<u64, KeyBirths>,
}

impl Lists {
    /// No births. Takes no memory.
    pub fn new(alloc: Global) -> Lists
        ensures { (q : ℕ) → births_at result q ≡ [] }
    {
        Lists {
            alloc,
            lists: HashMap::new(alloc),
        }
    }

    /// The births of a key, the oldest first.
    #[inline(always)]
    pub fn get(&self, key: u64) -> &[u64]
        ensures { result.now ≡ births_at self.now key }
    {
        match self.lists.get(&key) {
            Some(births) => births.as_slice(),
            None => &[],
        }
    }

    /// Adds a birth, the newest one, to those of a key. The births stay at an `Err`.
    pub fn add(&mut self, key: u64, birth: u64) -> Result<(), NoMemory>
        ensures ok { OnOk result (AddsBirth key birth self.old self.new) }
        ensures err { OnErr result (KeepsBirths self.old self.new) }
    {
        if let Some(births) = self.lists.get_mut(&key) {
            return births.add(self.alloc, birth);
        }
        match self.lists.insert(key, KeyBirths::One(birth)) {
            Ok(_) => Ok(()),
            Err(_) => Err(NoMemory),
        }
    }

    /// Takes a birth from those of a key. The list of a key that has none left is freed.
    pub fn remove(&mut self, key: u64, birth: u64)
        ensures taken { TakesBirth key birth self.old self.new }
        ensures gone { LetsGo key self.new }
    {
        if self.take(key, birth) {
            self.lists.remove(&key);
        }
    }

    // Takes a birth, and says whether the key has none left.
    fn take(&mut self, key: u64, birth: u64) -> bool
        ensures taken { TakesBirth key birth self.old self.new }
        ensures emptied { IsTrue result → births_at self.new key ≡ [] }
        ensures left { (result ≡ false) → LetsGo key self.new }
    {
        match self.lists.get_mut(&key) {
            Some(births) => {
                births.remove(birth);
                births.as_slice().is_empty()
            }
            None => false,
        }
    }
}
