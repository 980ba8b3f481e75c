//! Finds the births of a page, of a number of fields, and of a first value's key.

ghost use Rattle.std.specs.Prelude.{◌≡◌, ◌%◌, [], List, OnOk, OnErr, IfOk};
ghost use Rattle.space.specs.Births.{BornTuple};
ghost use Rattle.space.specs.Filing.{births_on, IsIndexOf, FilesEntry, FilesNothing, UnfilesEntry, FindsCandidates};

use crate::birth_table::BirthTable;
use crate::births::PAGES;
use crate::keys::{template_key, tuple_key};
use crate::lists::Lists;
use std::alloc::{Allocator, Global};
use std::collections::BTreeMap;
use terms::NoMemory;
use tuple_tree::{Template, Tuple};

/// The births of the stored tuples by their page, by their number of fields, and by the key of that number and the
/// first value.
#[derive(Drop)]
pub struct Index {
    pages: BirthTable,
    lengths: BirthTable,
    firsts: Lists,
}

impl Index {
    /// The index of no tuples. Takes no memory.
    pub fn new(alloc: Global) -> Index
        ensures { IsIndexOf result [] }
    {
        Index {
            pages: BirthTable::new(alloc),
            lengths: BirthTable::new(alloc),
            firsts: Lists::new(alloc),
        }
    }

    /// The index of these tuples.
    pub fn of(alloc: Global, tuples: &BTreeMap<u64, Tuple<Global>>) -> Result<Index, NoMemory>
        ensures { IfOk result (λ index. IsIndexOf index tuples.now.entries) }
    {
        let mut index = Index::new(alloc);
        for (birth, tuple) in tuples {
            index.insert(*birth, tuple)?;
        }
        Ok(index)
    }

    /// Adds the newest tuple. The listed births stay at an `Err`.
    pub fn insert<A: Allocator>(&mut self, birth: u64, tuple: &Tuple<A>) -> Result<(), NoMemory>
        ensures ok { OnOk result (FilesEntry (birth, tuple.now) self.old self.new) }
        ensures err { OnErr result (FilesNothing self.old self.new) }
    {
        self.pages.reserve(page_of(birth))?;
        self.lengths.reserve(tuple.len())?;
        // Last, since there are endless keys: an `Err` must leave no list at a new one.
        self.firsts.add(tuple_key(tuple), birth)?;
        self.pages.add(page_of(birth), birth);
        self.lengths.add(tuple.len(), birth);
        Ok(())
    }

    /// Takes a tuple. The list of its key goes with the last birth, while the 256 pages and 33 lengths keep
    /// theirs.
    pub fn remove<A: Allocator>(&mut self, birth: u64, tuple: &Tuple<A>)
        ensures { UnfilesEntry (birth, tuple.now) self.old self.new }
    {
        self.pages.remove(page_of(birth), birth);
        self.lengths.remove(tuple.len(), birth);
        self.firsts.remove(tuple_key(tuple), birth);
    }

    /// The births of a page, 0 to 255.
    pub fn on_page(&self, page: usize) -> &[u64]
        ensures { (es : List BornTuple) → IsIndexOf self.now es → result.now ≡ births_on page es }
    {
        self.pages.get(page)
    }

    /// The births of the tuples that a template may match: those of its key, or those of its length if its first field
    /// is no actual.
    pub fn candidates<A: Allocator>(&self, template: &Template<A>) -> &[u64]
        ensures { FindsCandidates template.now self.now result.now }
    {
        match template_key(template) {
            Some(key) => self.firsts.get(key),
            None => self.lengths.get(template.len()),
        }
    }
}

fn page_of(birth: u64) -> usize
    ensures { result ≡ birth % PAGES }
{
    (birth % PAGES as u64) as usize
}
