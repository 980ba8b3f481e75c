//! The keys under which parties seal and open frames.

ghost use Rattle.std.specs.Prelude.{◌≡◌, IfOk, IfSome, [], Some, option_map};
ghost use Rattle.authenticator.specs.Kept.{IsCodeBetween, IsKeyBetween, KeepsOrTakesText};
ghost use Rattle.authenticator.specs.Keys.{dealt, find_key, mac_between, row, shared_mac};
ghost use Rattle.authenticator.specs.Made.{AreMacsTo};
ghost use Rattle.authenticator.specs.Headers.{takes_part};
ghost use Rattle.authenticator.specs.Dealing.{dealt_keys};
ghost use Rattle.terms.specs.Parties.{party_number};
ghost use Rattle.authenticator.specs.RingView.{keys_of};
ghost use Rattle.authenticator.specs.Membership.{has_sender};
ghost use Rattle.wire_format.specs.Views.{body_data};

use crate::mac::{Key, hmac, mac_four};
use crate::row::{DealtKeys, Seed, SharedKey, key_among};
use std::alloc::Global;
use std::collections::HashMap;
use std::marker::Model;
use std::sync::Arc;
use terms::{FIRST_CLIENT, NoMemory, Party};
use wire::{Body, Message};

/// A text with its authentication code.
#[derive(Drop)]
pub struct CodedText {
    text: Vec<u8>,
    code: [u8; 32],
}

impl CodedText {
    // Takes another text with its code, if there is room for it.
    fn put(&mut self, text: &[u8], code: [u8; 32])
        ensures { KeepsOrTakesText text.now code self.old self.new }
    {
        if self.text.reserve(text.len()).is_err() {
            return;
        }
        self.text.clear();
        match self.text.extend_from_slice(text) {
            Ok(()) => self.code = code,
            Err(_) => unreachable!(),
        }
    }
}

/// Where a ring has its keys from: a seed that gives those of all parties, the keys of one party, or what a seed gives
/// one party.
#[derive(Drop)]
enum Source {
    Seed(Seed),
    Row(Arc<Vec<SharedKey>>),
    Dealt(DealtKeys),
}

/// The keys of one party, or of all parties of a seed. The ring makes each ready for texts when it first needs it, and
/// keeps it. It also keeps the last genuine request of each client, since a replica receives most requests twice: from
/// the client, and in the batch that orders them. It knows no public keys.
#[derive(Drop)]
pub struct Ring {
    alloc: Global,
    faults: u8,
    clients: u16,
    source: Source,
    kept: HashMap<(u16, u16), Key>,
    requests: HashMap<(u16, u16), CodedText>,
}

impl Model for Ring {
    ghost use Rattle.std.specs.Prelude.{[]};
    ghost use Rattle.authenticator.specs.Kept.{CodesFit, KeysFit};
    ghost use Rattle.authenticator.specs.Membership.{Membership};
    ghost use Rattle.authenticator.specs.RingView.{keys_of};

    ghost Value = { Membership };

    ghost view = { λ r. record {
      faults = r.faults;
      clients = r.clients;
      keys = keys_of r.source;
      publics = [];
    } };

    ghost invariant = { λ r. KeysFit (keys_of r.source) r.kept
        × CodesFit (keys_of r.source) r.requests };
}

impl Ring {
    /// The keys that a seed of 32 bytes gives all parties. Of `3 * faults + 1` replicas `faults`, 1 to 3, may be
    /// faulty; `clients`, 1 to 256, is the number of clients. It derives no key yet and takes no memory, so it gives no
    /// error.
    pub fn new(alloc: Global, seed: &[u8; 32], faults: u8, clients: u16) -> Ring
        ensures { result ≡ record {
          faults = faults;
          clients = clients;
          keys = dealt seed.now;
          publics = [];
        } }
    {
        Ring::from_source(alloc, faults, clients, Source::Seed(Seed::new(seed)))
    }

    /// The keys that one party has, and no other.
    ///
    /// # Errors
    ///
    /// NoMemory if memory runs out.
    pub fn of_party(
        alloc: Global,
        faults: u8,
        clients: u16,
        keys: Vec<SharedKey>,
    ) -> Result<Ring, NoMemory>
        ensures { IfOk result (λ ring. ring ≡ record {
          faults = faults;
          clients = clients;
          keys = row keys.items;
          publics = [];
        }) }
    {
        let source = Source::Row(Arc::new(alloc, keys)?);
        Ok(Ring::from_source(alloc, faults, clients, source))
    }

    /// The keys that a seed gives one party, and no other, as `deal` lists them. They are dealt when the first of them
    /// is needed; from then on the ring holds this row, and not the seed. It serves who plays all parties, of which
    /// most never meet. It takes no memory, so it gives no error.
    pub fn dealt(alloc: Global, seed: &[u8; 32], faults: u8, clients: u16, me: Party) -> Ring
        ensures { result ≡ record {
          faults = faults;
          clients = clients;
          keys = row (dealt_keys seed.now faults clients (party_number me));
          publics = [];
        } }
    {
        let keys = DealtKeys::new(seed, faults, clients, me.number());
        Ring::from_source(alloc, faults, clients, Source::Dealt(keys))
    }

    /// A ring of the same keys, which are not copied. What either makes ready or keeps from then on is its own.
    ///
    /// # Errors
    ///
    /// NoMemory if memory runs out.
    pub fn share(&self) -> Result<Ring, NoMemory>
        ensures { IfOk result (λ ring. ring ≡ self.now) }
    {
        let source = match &self.source {
            Source::Seed(seed) => Source::Seed(seed.twin()),
            Source::Row(keys) => Source::Row(Arc::try_clone(keys)?),
            Source::Dealt(keys) => Source::Dealt(keys.twin()),
        };
        Ok(Ring::from_source(self.alloc, self.faults, self.clients, source))
    }

    fn from_source(alloc: Global, faults: u8, clients: u16, source: Source) -> Ring
        ensures { result ≡ record {
          faults = faults;
          clients = clients;
          keys = keys_of source;
          publics = [];
        } }
    {
        Ring {
            alloc,
            faults,
            clients,
            source,
            kept: HashMap::new(alloc),
            requests: HashMap::new(alloc),
        }
    }

    /// Whether the sender that a body names takes part and may send such a message: clients send requests, replicas
    /// all other messages.
    pub fn has_sender(&self, body: &Body) -> bool
        ensures { result ≡ has_sender self.now (body_data body.now) }
    {
        let is_request = match &body.message {
            Message::Request(_) => true,
            _ => false,
        };
        self.takes_part(body.sender.number(), is_request)
    }

    /// Whether a party with this number takes part and may send a request, or any other message.
    pub(crate) fn takes_part(&self, sender: u16, is_request: bool) -> bool
        ensures { result ≡ takes_part self.now sender is_request }
    {
        if is_request {
            sender >= FIRST_CLIENT && sender - FIRST_CLIENT < self.clients
        } else {
            sender <= 3 * u16::from(self.faults)
        }
    }

    /// The authentication code of a text from one party to another, if they share a key.
    pub fn shared_mac(&mut self, from: u16, to: u16, text: &[u8]) -> Option<[u8; 32]>
        ensures code { result ≡ shared_mac self.old.keys from to text.now }
        ensures same { self.new ≡ self.old }
    {
        if let Some(key) = self.kept.get(&(from, to)) {
            return Some(key.mac(text));
        }
        self.first_mac(from, to, text)
    }

    // The code under a key that is not ready yet. A function pays for the size of its locals at each call, so the key
    // is made ready here, apart from those that are kept.
    fn first_mac(&mut self, from: u16, to: u16, text: &[u8]) -> Option<[u8; 32]>
        ensures code { result ≡ shared_mac self.old.keys from to text.now }
        ensures same { self.new ≡ self.old }
    {
        self.take_row();
        let bytes = self.shared_key(from, to)?;
        let key = Key::new(&bytes);
        let code = key.mac(text);
        // If there is no room for a key, it is made ready again at the next use.
        let _ = self.kept.insert((from, to), key);
        Some(code)
    }

    // A party whose keys are not dealt yet takes its row. If there is no room for it, the seed serves until the next
    // key.
    fn take_row(&mut self)
        ensures { self.new ≡ self.old }
    {
        let dealt = match &self.source {
            Source::Dealt(keys) => keys.row(self.alloc),
            _ => None,
        };
        let Some(keys) = dealt else {
            return;
        };
        if let Ok(row) = Arc::new(self.alloc, keys) {
            self.source = Source::Row(row);
        }
    }

    // The key from one party to another, if they share one.
    fn shared_key(&self, from: u16, to: u16) -> Option<[u8; 32]>
        ensures { result ≡ find_key self.now.keys from to }
    {
        match &self.source {
            Source::Seed(seed) => Some(seed.derive(from, to)),
            Source::Row(keys) => key_among(keys.as_slice(), from, to),
            Source::Dealt(keys) => keys.key(from, to),
        }
    }

    /// The authentication code that one party makes of a text for another: under an empty key, which no party takes, if
    /// they share none.
    pub fn mac(&mut self, from: u16, to: u16, text: &[u8]) -> [u8; 32]
        ensures code { result ≡ mac_between self.old.keys from to text.now }
        ensures same { self.new ≡ self.old }
    {
        match self.shared_mac(from, to, text) {
            Some(code) => code,
            None => hmac(&[], text),
        }
    }

    /// The codes that one party makes of a text for four others. They are made together, but for the first text: then
    /// some key is not ready yet.
    pub(crate) fn macs(&mut self, from: u16, to: [u16; 4], text: &[u8]) -> [[u8; 32]; 4]
        ensures codes { AreMacsTo self.old.keys from to text.now result }
        ensures same { self.new ≡ self.old }
    {
        if let Some(macs) = self.kept_macs(from, to, text) {
            return macs;
        }
        let [a, b, c, d] = to;
        [
            self.mac(from, a, text),
            self.mac(from, b, text),
            self.mac(from, c, text),
            self.mac(from, d, text),
        ]
    }

    // The codes of a text from one party to four others, if all their keys are kept.
    fn kept_macs(&self, from: u16, to: [u16; 4], text: &[u8]) -> Option<[[u8; 32]; 4]>
        ensures { IfSome result (AreMacsTo self.now.keys from to text.now) }
    {
        let [a, b, c, d] = to;
        let a = self.kept.get(&(from, a))?;
        let b = self.kept.get(&(from, b))?;
        let c = self.kept.get(&(from, c))?;
        let d = self.kept.get(&(from, d))?;
        Some(mac_four([a, b, c, d], text))
    }

    /// The authentication code of a request's text from one party to another, if it is the last that was kept.
    pub(crate) fn kept_code(&self, from: u16, to: u16, text: &[u8]) -> Option<[u8; 32]>
        ensures { IfSome result (λ code. IsCodeBetween self.now.keys from to text.now code) }
    {
        let last = self.requests.get(&(from, to))?;
        if last.text.as_slice() != text {
            return None;
        }
        Some(last.code)
    }

    /// Keeps a request's text with its code, instead of the last one between these parties.
    pub(crate) fn keep_code(&mut self, from: u16, to: u16, text: &[u8], code: [u8; 32])
        requires { IsCodeBetween self.old.keys from to text.now code }
        ensures { self.new ≡ self.old }
    {
        match self.requests.get_mut(&(from, to)) {
            Some(last) => last.put(text, code),
            None => self.keep_first_code(from, to, text, code),
        }
    }

    // Keeps the first text between these parties, with its code.
    fn keep_first_code(&mut self, from: u16, to: u16, text: &[u8], code: [u8; 32])
        requires { IsCodeBetween self.old.keys from to text.now code }
        ensures { self.new ≡ self.old }
    {
        // If there is no room for it, the code is made again at the next use.
        let Ok(text) = Vec::from_slice(self.alloc, text) else {
            return;
        };
        let _ = self.requests.insert((from, to), CodedText { text, code });
    }
}
