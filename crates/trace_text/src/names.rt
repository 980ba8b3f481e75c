//! The texts of parties, digests, modes and parts of a state.

ghost use Rattle.std.specs.Prelude.{◌≡◌, ◌++◌, decimal, Some};
ghost use Rattle.terms.specs.Parties.{party_number};
ghost use Rattle.tuple_text.specs.Written.{WritesText};
ghost use Rattle.trace_text.specs.Frames.{party_text, short, mode_text, place_text};

use crate::putting::put;
use std::alloc::Global;
use std::fmt;
use terms::{Digest, FIRST_CLIENT, Level, Mode, NoMemory, Party};

/// A party as it is shown: replica 0 is `r0`, client 0 is `c0`.
#[derive(Clone, Copy, Drop)]
pub struct Name(pub Party);

impl fmt::Display for Name {
    ghost output = { λ name. Some (party_text (party_number name.0)) };

    fn fmt<W: fmt::Write>(&self, f: &mut fmt::Formatter<W>) -> fmt::Result {
        let number = self.0.number();
        if number < FIRST_CLIENT {
            write!(f, "r{number}")
        } else {
            let client = number - FIRST_CLIENT;
            write!(f, "c{client}")
        }
    }
}

impl fmt::Debug for Name {
    fn fmt<W: fmt::Write>(&self, f: &mut fmt::Formatter<W>) -> fmt::Result {
        write!(f, "{self}")
    }
}

/// A part of a state's tree.
#[derive(Clone, Copy, Drop)]
pub(crate) struct Place {
    pub(crate) level: Level,
    pub(crate) index: u16,
}

impl fmt::Display for Place {
    ghost output = { λ place. Some (place_text place.level place.index) };

    fn fmt<W: fmt::Write>(&self, f: &mut fmt::Formatter<W>) -> fmt::Result {
        let index = self.index;
        match self.level {
            Level::Root => write!(f, "root"),
            Level::Inner => write!(f, "inner {index}"),
            Level::Page => write!(f, "page {index}"),
        }
    }
}

pub(crate) fn mode_name(mode: Mode) -> &'static str
    ensures { result.now ≡ mode_text mode }
{
    match mode {
        Mode::Ordered => "ordered",
        Mode::ReadOnly => "read-only",
    }
}

/// Appends a text and a party.
pub(crate) fn put_party(
    alloc: Global,
    before: &str,
    party: Party,
    out: &mut Vec<u8>,
) -> Result<(), NoMemory>
    ensures { WritesText result out.old.items (before.now ++ party_text (party_number party)) out.new.items }
{
    let party = Name(party);
    put(format!(in alloc; "{before}{party}"), out)
}

/// Appends a text and a number.
pub(crate) fn put_number(
    alloc: Global,
    before: &str,
    number: u64,
    out: &mut Vec<u8>,
) -> Result<(), NoMemory>
    ensures { WritesText result out.old.items (before.now ++ decimal number) out.new.items }
{
    put(format!(in alloc; "{before}{number}"), out)
}

/// Appends the first four bytes of a digest, two hexadecimal digits each.
pub(crate) fn put_short(alloc: Global, digest: &Digest, out: &mut Vec<u8>) -> Result<(), NoMemory>
    ensures { WritesText result out.old.items (short digest.now) out.new.items }
{
    put(hex::encode(alloc, &digest[..4]), out)
}
