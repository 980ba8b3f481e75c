//! The limits of tuples and templates, and why an item is refused.

ghost use Rattle.std.specs.Prelude.{◌≡◌, ◌≤◌, OnOk};
ghost use Rattle.tuple_tree.specs.Extents.{Extends, LengthensList};
ghost use Rattle.tuple_tree.specs.Puts.{HasRoom};

use std::alloc::Allocator;
use thiserror::Error;

/// Most items of a list, at each level.
pub const MAX_FIELDS: usize = 32;

/// Most levels. A flat list has one.
pub const MAX_DEPTH: u8 = 8;

/// Most bytes of an encoding.
pub const MAX_LEN: usize = 1024;

// So much room has a list with its first item, so that a short one grows once.
const FIRST_ROOM: usize = 64;

/// Why an item was not added.
#[derive(Clone, Copy, Debug, PartialEq, Eq, Error)]
pub enum Refusal {
    #[error("more than 32 fields")]
    TooManyFields,
    #[error("more than 8 levels")]
    TooDeep,
    #[error("an encoding of more than 1,024 bytes")]
    TooLong,
    #[error("out of memory")]
    NoMemory,
}

/// A refused item, and why it was refused.
#[derive(Drop)]
pub struct Refused<T> {
    pub refusal: Refusal,
    pub value: T,
}

/// Levels and bytes of a tree, and whether it has a wide number, kept beside its items so that they are known in
/// constant time.
#[derive(Clone, Copy)]
pub struct Extent {
    pub depth: u8,
    pub encoded_len: u16,
    pub has_wide: bool,
}

impl Extent {
    /// The extent of an empty list: one level, and the byte of its count.
    pub const EMPTY: Extent = Extent {
        depth: 1,
        encoded_len: 1,
        has_wide: false,
    };

    /// The extent of a list of `len` items with one more at its end, or the first limit that the longer list passes.
    #[inline]
    fn with_item(
        self,
        len: u8,
        item_depth: u8,
        item_len: usize,
        item_wide: bool,
    ) -> Result<Extent, Refusal>
        requires depth { item_depth ≤ 8 }
        requires bytes { self.encoded_len ≤ 1024 }
        ensures within { Extends self len item_depth item_len item_wide result }
    {
        if len as usize >= MAX_FIELDS {
            return Err(Refusal::TooManyFields);
        }
        let depth = self.depth.max(1 + item_depth);
        if depth > MAX_DEPTH {
            return Err(Refusal::TooDeep);
        }
        if item_len > MAX_LEN - self.encoded_len as usize {
            return Err(Refusal::TooLong);
        }
        Ok(Extent {
            depth,
            encoded_len: self.encoded_len + item_len as u16,
            has_wide: self.has_wide || item_wide,
        })
    }

    /// The same of a list that is kept as bytes, with room made there for those of the item.
    #[inline]
    pub fn with_room<A: Allocator>(
        self,
        len: u8,
        item_depth: u8,
        item_len: usize,
        item_wide: bool,
        out: &mut Vec<u8, A>,
    ) -> Result<Extent, Refusal>
        requires depth { item_depth ≤ 8 }
        requires bytes { self.encoded_len ≤ 1024 }
        ensures within { LengthensList self len item_depth item_len item_wide result }
        ensures room { OnOk result (HasRoom out.new item_len) }
        ensures kept { out.new.items ≡ out.old.items }
    {
        let extent = self.with_item(len, item_depth, item_len, item_wide)?;
        // Mostly there is room, and then a call is saved.
        if item_len <= out.capacity() - out.len() {
            return Ok(extent);
        }
        let room = if len == 0 {
            item_len.max(FIRST_ROOM)
        } else {
            item_len
        };
        match out.reserve(room) {
            Ok(()) => Ok(extent),
            Err(_) => Err(Refusal::NoMemory),
        }
    }
}
