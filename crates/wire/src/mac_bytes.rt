//! The MACs of a frame, where they lie in its bytes.

ghost use Rattle.std.specs.Prelude.{◌≡◌, ◌*◌, ◌<◌, ◌≤◌, Some, length, map, slice_get};
ghost use Rattle.wire_format.specs.Lists.{ascends};
ghost use Rattle.wire.specs.Macs.{mac_in, macs_in};
ghost use Rattle.wire_format.specs.Spelling.{mac_before};
ghost use Rattle.wire_format.specs.Views.{mac_data};
ghost use Rattle.wire_format.specs.Reading.{macs_at};
ghost use Rattle.wire.specs.Results.{YieldsFront};

use crate::reading::{party, read_byte};
use arrayvec::ArrayVec;
use byteorder::{BigEndian, ByteOrder};
use std::marker::Model;
use wire_format::{MAX_RECEIVERS, ReceiverMac};

/// The length of an entry, in bytes: the receiver's number, and the MAC.
const ENTRY_LEN: usize = 34;

/// The MACs of a body for its receivers, where they lie in the frame. Nothing of them is copied.
#[derive(Drop)]
pub struct MacBytes<'b> {
    count: u8,
    entries: &'b [u8],
}

impl<'b> Model for MacBytes<'b> {
    ghost use Rattle.std.specs.Prelude.{List};
    ghost use Rattle.wire_format.specs.Messages.{MacData};

    ghost Value = { List MacData };

    ghost use Rattle.wire.specs.EntryBytes.{entries_view, AreEntries};

    ghost view = { entries_view };

    ghost invariant = { AreEntries };
}

impl<'b> MacBytes<'b> {
    /// How many there are: at most 10.
    #[tactic(auto, using(crate::proofs::Entries::macs_count))]
    pub fn len(&self) -> usize
        ensures value { result ≡ length self.now }
        ensures few { result ≤ 10 }
    {
        self.count as usize
    }

    /// The entry of this index, read out of the bytes.
    #[tactic(auto, using(crate::proofs::Entries::macs_count))]
    pub fn get(&self, i: usize) -> ReceiverMac
        requires { i < length self.now }
        ensures { slice_get self.now i ≡ Some (mac_data result) }
    {
        let (_before, entry) = self.entries.split_at(ENTRY_LEN * i);
        read_entry(entry)
    }

    /// All entries, each read out of the bytes.
    pub fn copied(&self) -> ArrayVec<ReceiverMac, MAX_RECEIVERS>
        ensures { map mac_data result.items ≡ self.now }
    {
        let mut macs = ArrayVec::new();
        for i in 0..self.len() {
            macs.push(self.get(i));
        }
        macs
    }
}

// The entry at the front.
fn read_entry(bytes: &[u8]) -> ReceiverMac
    requires { 34 ≤ length bytes.now }
    ensures { mac_data result ≡ mac_in bytes.now }
{
    let mut mac = [0; 32];
    mac.copy_from_slice(&bytes[2..ENTRY_LEN]);
    let receiver = party(BigEndian::read_u16(bytes));
    ReceiverMac { receiver, mac }
}

/// The MACs at the front, and the rest.
#[tactic(auto, unfolding(wire_format::specs::Reading::macs_at))]
pub(crate) fn read_macs(bytes: &[u8]) -> Option<(MacBytes<'_>, &[u8])>
    ensures { YieldsFront (λ ms. ms) result (macs_at bytes.now) }
{
    let (count, front) = read_byte(bytes)?;
    if count < 1 || count as usize > MAX_RECEIVERS {
        return None;
    }
    let len = ENTRY_LEN * count as usize;
    if front.len() < len {
        return None;
    }
    if !ascend(front, count) {
        return None;
    }
    let macs = MacBytes {
        count,
        entries: front,
    };
    Some((macs, &front[len..]))
}

// Whether the receivers of so many entries at the front ascend.
fn ascend(entries: &[u8], count: u8) -> bool
    requires { 34 * count ≤ length entries.now }
    ensures { result ≡ ascends mac_before (macs_in count entries.now) }
{
    let mut rest = entries;
    for _i in 1..count {
        let next = &rest[ENTRY_LEN..];
        if BigEndian::read_u16(rest) >= BigEndian::read_u16(next) {
            return false;
        }
        rest = next;
    }
    true
}
