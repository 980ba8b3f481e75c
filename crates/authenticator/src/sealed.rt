//! Frames that parties seal for each other and open.

ghost use Rattle.std.specs.Prelude.{◌≡◌, ◌+◌, ◌<◌, ◌≤◌, ℕ, List, ◌++◌, IfOk, IfErr, IsTrue, length, map, take};
ghost use Rattle.wire_format.specs.Spelling.{IsMac};
ghost use Rattle.wire_format.specs.Lists.{Each};
ghost use Rattle.authenticator.specs.Sealing.{IsSealable};
ghost use Rattle.terms.specs.Parties.{party_number};
ghost use Rattle.wire_format.specs.Views.{body_data, mac_data};
ghost use Rattle.authenticator.specs.Authentic.{has_mac, has_some_mac, is_mac_for};
ghost use Rattle.authenticator.specs.Keys.{shared_mac};
ghost use Rattle.authenticator.specs.Opening.{RefusesFrame};
ghost use Rattle.authenticator.specs.Headers.{is_authenticated};
ghost use Rattle.wire.specs.Headers.{header_data};
ghost use Rattle.authenticator.specs.Results.{AreMacsFor, SealsBody, TellsTooLong, IsOpened, OpensEach, refusal_of_header};

use crate::mac::same;
use crate::ring::Ring;
use arrayvec::ArrayVec;
use std::alloc::Global;
use terms::{NoMemory, Party};
use thiserror::Error;
use wire::{
    Authenticator, AuthenticatorBytes, Body, Frame, Header, MAX_RECEIVERS, MacBytes, NoFrame,
    ReceiverMac, WireFault, begin_frame, body_bytes, decode_judged, judge, put_authenticator,
};

/// Why a frame was refused.
#[derive(Clone, Copy, Debug, PartialEq, Eq, Error)]
pub enum OpenFault {
    /// The frame, or a view change that it carries, is longer than it may be.
    #[error("the frame is too long")]
    TooLarge,
    /// The bytes, whole, are no frame.
    #[error("the bytes are no frame")]
    Malformed,
    /// The sender is no party, or not of the sort that sends such messages.
    #[error("the sender is unknown")]
    UnknownSender,
    /// The authenticator has no entry for the receiver, or a wrong one.
    #[error("the MAC is wrong")]
    BadMac,
    /// There was no memory for the frame.
    #[error("out of memory")]
    NoMemory,
}

/// Why nothing was sealed.
#[derive(Clone, Copy, Debug, PartialEq, Eq, Error)]
pub enum SealFault {
    /// The frame would be longer than it may be.
    #[error("the frame is too long")]
    TooLarge,
    /// There was no memory for the frame.
    #[error("out of memory")]
    NoMemory,
}

impl From<NoMemory> for SealFault {
    ghost use Rattle.std.specs.Prelude.{◌≡◌};
    ghost use Rattle.authenticator.specs.declared.sealed.SealFault.TheVariants.{NoMemory as no_memory};

    ghost from_gives = { λ _ e. e ≡ no_memory };

    fn from(_failed: NoMemory) -> SealFault {
        SealFault::NoMemory
    }
}

impl From<NoFrame> for OpenFault {
    ghost use Rattle.std.specs.Prelude.{◌≡◌};
    ghost use Rattle.authenticator.specs.Faults.{open_fault};

    ghost from_gives = { λ fault e. e ≡ open_fault fault };

    fn from(fault: NoFrame) -> OpenFault {
        match fault {
            NoFrame::TooLarge => OpenFault::TooLarge,
            NoFrame::Malformed => OpenFault::Malformed,
        }
    }
}

impl From<NoMemory> for OpenFault {
    ghost use Rattle.std.specs.Prelude.{◌≡◌};
    ghost use Rattle.authenticator.specs.declared.sealed.OpenFault.TheVariants.{NoMemory as no_memory};

    ghost from_gives = { λ _ e. e ≡ no_memory };

    fn from(_failed: NoMemory) -> OpenFault {
        OpenFault::NoMemory
    }
}

/// A frame that its receiver may take. Its body names the sender and the message.
#[derive(Drop)]
pub struct Opened {
    pub frame: Frame,
}

impl Ring {
    /// The bytes of a frame of this body, with a MAC for each of 1 to 10 receivers, which ascend by their numbers.
    /// The sender may send the body with MACs, so it is no view change and no new view. [`SealFault::TooLarge`] comes
    /// exactly if the frame would be longer than it may be, and [`SealFault::NoMemory`] if there is no memory for it.
    /// Neither changes the ring.
    pub fn seal(
        &mut self,
        alloc: Global,
        body: &Body,
        receivers: &[Party],
    ) -> Result<Vec<u8>, SealFault>
        requires { IsSealable (body_data body.now) (map party_number receivers.now) }
        ensures sealed { IfOk result (SealsBody self.old.keys body.now receivers.now) }
        ensures large { TellsTooLong self.old.keys body.now receivers.now result }
        ensures same { self.new ≡ self.old }
    {
        let mut frame = match begin_frame(alloc, body, 2 + 34 * receivers.len()) {
            Ok(frame) => frame,
            Err(WireFault::TooLarge) => return Err(SealFault::TooLarge),
            Err(WireFault::NoMemory) => return Err(SealFault::NoMemory),
            Err(WireFault::Malformed) => unreachable!(),
        };
        let entries = self.entries(body.sender.number(), body_bytes(&frame), receivers);
        put_authenticator(&mut frame, &Authenticator::Macs(entries))?;
        Ok(frame)
    }

    // The MAC of the text for each receiver. Those for up to four receivers are made together.
    fn entries(
        &mut self,
        sender: u16,
        text: &[u8],
        receivers: &[Party],
    ) -> ArrayVec<ReceiverMac, MAX_RECEIVERS>
        requires { length receivers.now ≤ 10 }
        ensures made { AreMacsFor self.old.keys sender text.now receivers.now result.items }
        ensures formed { Each IsMac (map mac_data result.items) }
        ensures same { self.new ≡ self.old }
    {
        let mut entries = ArrayVec::new();
        for group in receivers.chunks(4) {
            let made = self.group_entries(sender, text, group);
            match entries.try_extend_from_slice(&made[..group.len()]) {
                Ok(()) => {},
                Err(_) => unreachable!(),
            }
        }
        entries
    }

    // The MACs of the text for one to four receivers, in the first places.
    fn group_entries(&mut self, sender: u16, text: &[u8], group: &[Party]) -> [ReceiverMac; 4]
        requires some { 0 < length group.now }
        requires few { length group.now ≤ 4 }
        ensures made { AreMacsFor self.old.keys sender text.now group.now (take (length group.now) result) }
        ensures formed { Each IsMac (map mac_data (take (length group.now) result)) }
        ensures same { self.new ≡ self.old }
    {
        if let [receiver] = group {
            let mac = self.mac(sender, receiver.number(), text);
            let entry = ReceiverMac {
                receiver: *receiver,
                mac,
            };
            return [entry; 4];
        }
        let mut receivers = [group[0]; 4];
        receivers[..group.len()].copy_from_slice(group);
        self.four_entries(sender, text, receivers)
    }

    // The MACs of the text for four receivers, which are made together.
    fn four_entries(&mut self, sender: u16, text: &[u8], receivers: [Party; 4]) -> [ReceiverMac; 4]
        ensures made { AreMacsFor self.old.keys sender text.now receivers result }
        ensures formed { Each IsMac (map mac_data result) }
        ensures same { self.new ≡ self.old }
    {
        let [a, b, c, d] = receivers;
        let [p, q, r, s] = self.macs(
            sender,
            [a.number(), b.number(), c.number(), d.number()],
            text,
        );
        let entry = |receiver: Party, mac: [u8; 32]| ReceiverMac { receiver, mac };
        [entry(a, p), entry(b, q), entry(c, r), entry(d, s)]
    }

    /// The frame that the bytes spell, if its sender takes part and may send such a message. Its authenticator must
    /// have the right entry for `me`, or be a signature; signatures are not tested here. The first refusal that
    /// applies is given, in the order of [`OpenFault`]. Refused bytes take no memory, so out of memory comes last.
    pub fn open(&mut self, alloc: Global, bytes: &[u8], me: Party) -> Result<Opened, OpenFault>
        ensures opened { IfOk result (IsOpened self.old me bytes.now) }
        ensures all { OpensEach self.old me bytes.now result }
        ensures refused { IfErr result (RefusesFrame self.old (party_number me) bytes.now) }
        ensures same { self.new ≡ self.old }
    {
        let header = judge(bytes)?;
        if let Some(fault) = self.refusal(&header, me) {
            return Err(fault);
        }
        let frame = decode_judged(alloc, bytes)?;
        Ok(Opened { frame })
    }

    /// Why `me` refuses a frame of this header, if it does: the sender is unknown, or else the MAC is wrong.
    /// Signatures are not tested here. It takes no memory except for the keys and requests that the ring keeps.
    pub fn refusal(&mut self, header: &Header<'_>, me: Party) -> Option<OpenFault>
        ensures value { result ≡ refusal_of_header self.old me header.now }
        ensures same { self.new ≡ self.old }
    {
        if !self.takes_part(header.sender.number(), header.is_request) {
            return Some(OpenFault::UnknownSender);
        }
        if !self.is_authenticated(header, me.number()) {
            return Some(OpenFault::BadMac);
        }
        None
    }

    // Whether the authenticator has the right entry for the party or is a signature.
    fn is_authenticated(&mut self, header: &Header<'_>, party: u16) -> bool
        ensures value { result ≡ is_authenticated self.old.keys party (header_data header.now) }
        ensures same { self.new ≡ self.old }
    {
        match &header.authenticator {
            AuthenticatorBytes::Macs(entries) => {
                let sender = header.sender.number();
                if header.is_request {
                    return self.proves_request(sender, party, header.text, entries);
                }
                match self.shared_mac(sender, party, header.text) {
                    Some(mac) => has_mac(entries, party, &mac),
                    None => false,
                }
            },
            AuthenticatorBytes::Signature(_) => true,
        }
    }

    // Whether an entry for the party is the MAC of a client's request. The MAC of the client's last request that was
    // right is kept, and not made again.
    fn proves_request(
        &mut self,
        client: u16,
        party: u16,
        text: &[u8],
        entries: &MacBytes<'_>,
    ) -> bool
        ensures value { result ≡ has_some_mac party (shared_mac self.old.keys client party text.now) entries.now }
        ensures same { self.new ≡ self.old }
    {
        if let Some(mac) = self.kept_code(client, party, text) {
            return has_mac(entries, party, &mac);
        }
        let Some(mac) = self.shared_mac(client, party, text) else {
            return false;
        };
        if !has_mac(entries, party, &mac) {
            return false;
        }
        self.keep_code(client, party, text, mac);
        true
    }
}

// Whether an entry for the party is this MAC.
fn has_mac(entries: &MacBytes<'_>, party: u16, mac: &[u8; 32]) -> bool
    ensures { result ≡ has_mac party mac.now entries.now }
{
    for i in 0..entries.len() {
        if is_mac_for(&entries.get(i), party, mac) {
            return true;
        }
    }
    false
}

fn is_mac_for(entry: &ReceiverMac, party: u16, mac: &[u8; 32]) -> bool
    ensures { result ≡ is_mac_for party mac.now (mac_data entry.now) }
{
    entry.receiver.number() == party && same(&entry.mac, mac)
}
