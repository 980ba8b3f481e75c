//! The births of a key.

ghost use Rattle.std.specs.Prelude.{◌≡◌, ◌++◌, ◌∷◌, [], IfOk, OnOk, OnErr};
ghost use Rattle.space.specs.Ages.{births_without, AreRising};
ghost use Rattle.space.specs.KeyBirths.{births_of};

use crate::birth_list::BirthList;
use std::alloc::Global;
use std::slice::from_ref;
use terms::NoMemory;

/// Births, the oldest first. Most keys have one, which takes no memory of its own.
#[derive(Drop)]
pub enum KeyBirths {
    /// No birth.
    Empty,
    One(u64),
    Many(BirthList),
}

impl KeyBirths {
    /// The births.
    pub fn as_slice(&self) -> &[u64]
        ensures { result.now ≡ births_of self.now }
    {
        match self {
            KeyBirths::Empty => &[],
            KeyBirths::One(birth) => from_ref(birth),
            KeyBirths::Many(births) => births.as_slice(),
        }
    }

    /// Adds a birth at the end. The births stay at an `Err`.
    pub fn add(&mut self, alloc: Global, birth: u64) -> Result<(), NoMemory>
        ensures ok { OnOk result (births_of self.new ≡ births_of self.old ++ birth ∷ []) }
        ensures err { OnErr result (births_of self.new ≡ births_of self.old) }
    {
        match self {
            KeyBirths::Empty => *self = KeyBirths::One(birth),
            KeyBirths::One(first) => *self = KeyBirths::Many(list_of(alloc, *first, birth)?),
            KeyBirths::Many(births) => {
                births.reserve()?;
                births.push(birth);
            }
        }
        Ok(())
    }

    /// Takes a birth, if it is there.
    pub fn remove(&mut self, birth: u64)
        ensures { AreRising (births_of self.old) → births_of self.new ≡ births_without birth (births_of self.old) }
    {
        match self {
            KeyBirths::Empty => {}
            KeyBirths::One(one) => {
                if *one == birth {
                    *self = KeyBirths::Empty;
                }
            }
            KeyBirths::Many(births) => births.remove(birth),
        }
    }
}

// The list of two births.
fn list_of(alloc: Global, first: u64, second: u64) -> Result<BirthList, NoMemory>
    ensures { IfOk result (λ list. list.births ≡ first ∷ second ∷ []) }
{
    let mut births = BirthList::with_room(alloc)?;
    births.push(first);
    births.reserve()?;
    births.push(second);
    Ok(births)
}
