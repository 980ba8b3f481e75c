//! Shared keys, and how a seed gives them.

ghost use Rattle.std.specs.Prelude.{◌≡◌, [], ◌∷◌, ◌++◌, ◌≤◌, ◌+◌, ◌*◌, ◌<◌, ◌==◌, ◌&&◌, not, nat_lt};
ghost use Rattle.std.specs.Prelude.{IfOk, IfSome, OnOk};
ghost use Rattle.std.specs.Int.{w16, to_be_bytes};
ghost use Rattle.authenticator.specs.Dealing.{IsPairPushed, all_clients, both_keys, clients_of, dealt_keys, keys_with, other_replicas, others_among};
ghost use Rattle.authenticator.specs.Keys.{derived_key, find_key, row, signing_seed};
ghost use Rattle.authenticator.specs.Laws.{is_among_clients, is_peer};
ghost use Rattle.authenticator.specs.RingView.{joins, keys_dealt};
ghost use Rattle.terms.specs.Parties.{party_number};

use crate::mac::{Key, hmac};
use std::alloc::{AllocError, Global};
use std::marker::Model;
use terms::{FIRST_CLIENT, MAX_CLIENTS, NoMemory, Party};

/// The key under which one party seals what it sends to another.
#[derive(Drop)]
pub struct SharedKey {
    pub from: u16,
    pub to: u16,
    pub key: [u8; 32],
}

/// A seed that is made ready to derive keys.
#[derive(Drop)]
pub(crate) struct Seed {
    seed: [u8; 32],
    source: Key,
}

impl Model for Seed {
    ghost use Rattle.std.specs.Prelude.{ℕ, List};
    ghost use Rattle.authenticator.specs.Made.{IsMadeOf};

    ghost Value = { List ℕ };

    ghost view = { λ s. s.seed };

    ghost invariant = { λ s. IsMadeOf s.source s.seed };
}

impl Seed {
    pub(crate) fn new(seed: &[u8; 32]) -> Seed
        ensures { result ≡ seed.now }
    {
        Seed {
            seed: *seed,
            source: Key::new(seed),
        }
    }

    /// The same seed once more.
    pub(crate) fn twin(&self) -> Seed
        ensures { result ≡ self.now }
    {
        Seed::new(&self.seed)
    }

    /// The key from one party to another.
    pub(crate) fn derive(&self, from: u16, to: u16) -> [u8; 32]
        ensures { result ≡ derived_key self.now from to }
    {
        self.source.mac(&key_text(from, to))
    }

    // The keys between a party and two others, in both directions. All four are derived together.
    fn derive_four(&self, me: u16, one: u16, other: u16) -> [[u8; 32]; 4]
        ensures { result ≡ derived_key self.now one me ∷ derived_key self.now me one
            ∷ derived_key self.now other me ∷ derived_key self.now me other ∷ [] }
    {
        let (a, b) = (key_text(one, me), key_text(me, one));
        let (c, d) = (key_text(other, me), key_text(me, other));
        self.source.mac_each([&a, &b, &c, &d])
    }

    // Appends the keys between a party and two others, in both directions.
    fn push_two(
        &self,
        me: u16,
        one: u16,
        other: u16,
        keys: &mut Vec<SharedKey>,
    ) -> Result<(), AllocError>
        ensures { OnOk result (keys.new.items ≡ (keys.old.items ++ both_keys self.now me one) ++ both_keys self.now me other) }
    {
        let [a, b, c, d] = self.derive_four(me, one, other);
        push_pair(me, one, [a, b], keys)?;
        push_pair(me, other, [c, d], keys)
    }

    // Appends the keys between two parties, in both directions.
    fn push_both(&self, me: u16, party: u16, keys: &mut Vec<SharedKey>) -> Result<(), AllocError>
        ensures { OnOk result (keys.new.items ≡ keys.old.items ++ both_keys self.now me party) }
    {
        let pair = [self.derive(party, me), self.derive(me, party)];
        push_pair(me, party, pair, keys)
    }
}

// Appends the key from a party to this one, and the key back.
fn push_pair(
    me: u16,
    party: u16,
    pair: [[u8; 32]; 2],
    keys: &mut Vec<SharedKey>,
) -> Result<(), AllocError>
    ensures { OnOk result (IsPairPushed me party pair keys.old.items keys.new.items) }
{
    let [there, back] = pair;
    keys.push(SharedKey {
        from: party,
        to: me,
        key: there,
    })?;
    keys.push(SharedKey {
        from: me,
        to: party,
        key: back,
    })?;
    Ok(())
}

/// What a seed gives one party: the keys that `deal` lists, before they are dealt.
#[derive(Drop)]
pub(crate) struct DealtKeys {
    seed: Seed,
    faults: u8,
    clients: u16,
    me: u16,
}

impl DealtKeys {
    pub(crate) fn new(seed: &[u8; 32], faults: u8, clients: u16, me: u16) -> DealtKeys
        ensures { keys_dealt result ≡ dealt_keys seed.now faults clients me }
    {
        DealtKeys {
            seed: Seed::new(seed),
            faults,
            clients,
            me,
        }
    }

    /// The same keys once more.
    pub(crate) fn twin(&self) -> DealtKeys
        ensures { keys_dealt result ≡ keys_dealt self.now }
    {
        DealtKeys {
            seed: self.seed.twin(),
            faults: self.faults,
            clients: self.clients,
            me: self.me,
        }
    }

    /// The row of these keys. A system has up to 256 clients, and of more there is no row.
    pub(crate) fn row(&self, alloc: Global) -> Option<Vec<SharedKey>>
        ensures { IfSome result (λ keys. keys.items ≡ keys_dealt self.now) }
    {
        if usize::from(self.clients) > MAX_CLIENTS {
            return None;
        }
        deal_by(alloc, &self.seed, self.faults, self.clients, self.me).ok()
    }

    /// The key from one party to another, if one of them is this party, and the other exchanges frames with it.
    pub(crate) fn key(&self, from: u16, to: u16) -> Option<[u8; 32]>
        ensures { result ≡ find_key (row (keys_dealt self.now)) from to }
    {
        if self.joins(from, to) {
            Some(self.seed.derive(from, to))
        } else {
            None
        }
    }

    // Whether one of the two is this party, and the other exchanges frames with it.
    fn joins(&self, from: u16, to: u16) -> bool
        ensures { result ≡ joins self.now.faults self.now.clients self.now.me from to }
    {
        self.meets(from, to) || self.meets(to, from)
    }

    // Whether the one is this party, and the other exchanges frames with it.
    fn meets(&self, one: u16, other: u16) -> bool
        ensures { result ≡ ((one == self.now.me) && is_peer self.now.faults self.now.clients self.now.me other) }
    {
        one == self.me && (self.is_other_replica(other) || self.is_client_of_mine(other))
    }

    fn is_other_replica(&self, party: u16) -> bool
        ensures { result ≡ (not (party == self.now.me) && nat_lt party (3 * self.now.faults + 1)) }
    {
        party != self.me && party <= 3 * u16::from(self.faults)
    }

    fn is_client_of_mine(&self, party: u16) -> bool
        ensures { result ≡ (nat_lt self.now.me FIRST_CLIENT && is_among_clients self.now.clients party) }
    {
        self.me < FIRST_CLIENT && party >= FIRST_CLIENT && party - FIRST_CLIENT < self.clients
    }
}

/// The keys that a party shares with each party that it exchanges frames with, in both directions, as a seed gives
/// them: a replica with the other replicas and all clients, a client with all replicas. Of `3 * faults + 1` replicas
/// `faults`, 1 to 3, may be faulty; `clients`, 1 to 256, is the number of clients.
///
/// # Errors
///
/// NoMemory if memory runs out.
pub fn deal(
    alloc: Global,
    seed: &[u8; 32],
    faults: u8,
    clients: u16,
    me: Party,
) -> Result<Vec<SharedKey>, NoMemory>
    requires few { faults ≤ 3 }
    requires clients { clients ≤ 256 }
    ensures { IfOk result (λ keys. keys.items ≡ dealt_keys seed.now faults clients (party_number me)) }
{
    deal_by(alloc, &Seed::new(seed), faults, clients, me.number())
}

// The keys that `deal` lists, by a seed that is ready.
fn deal_by(
    alloc: Global,
    seed: &Seed,
    faults: u8,
    clients: u16,
    me: u16,
) -> Result<Vec<SharedKey>, NoMemory>
    requires { clients ≤ 256 }
    ensures { IfOk result (λ keys. keys.items ≡ dealt_keys seed.now faults clients me) }
{
    let mut keys = Vec::new(alloc);
    push_replicas(seed, faults, me, &mut keys)?;
    let clients = clients_of(me, clients);
    push_clients(seed, clients, me, &mut keys)?;
    Ok(keys)
}

// How many clients a party exchanges frames with: a replica with all, a client with none.
fn clients_of(me: u16, clients: u16) -> u16
    ensures { result ≡ clients_of me clients }
{
    if me < FIRST_CLIENT { clients } else { 0 }
}

// Appends the keys that a party shares with all other replicas.
fn push_replicas(
    seed: &Seed,
    faults: u8,
    me: u16,
    keys: &mut Vec<SharedKey>,
) -> Result<(), AllocError>
    ensures { OnOk result (keys.new.items ≡ keys.old.items ++ keys_with seed.now me (other_replicas faults me)) }
{
    for party in 0..3 * u16::from(faults) + 1 {
        push_other(seed, me, party, keys)?;
    }
    Ok(())
}

// Appends the keys that a party shares with this one, if that is another.
fn push_other(seed: &Seed, me: u16, party: u16, keys: &mut Vec<SharedKey>) -> Result<(), AllocError>
    ensures { OnOk result (keys.new.items ≡ keys.old.items ++ keys_with seed.now me (others_among (party ∷ []) me)) }
{
    if party == me {
        return Ok(());
    }
    seed.push_both(me, party, keys)
}

// Appends the keys that a replica shares with all clients.
fn push_clients(
    seed: &Seed,
    clients: u16,
    me: u16,
    keys: &mut Vec<SharedKey>,
) -> Result<(), AllocError>
    requires { clients ≤ 256 }
    ensures { OnOk result (keys.new.items ≡ keys.old.items ++ keys_with seed.now me (all_clients clients)) }
{
    for pair in 0..clients / 2 {
        let first = FIRST_CLIENT + 2 * pair;
        seed.push_two(me, first, first + 1, keys)?;
    }
    if clients % 2 == 1 {
        seed.push_both(me, FIRST_CLIENT + clients - 1, keys)?;
    }
    Ok(())
}

/// The key from one party to another, if it is among these.
pub(crate) fn key_among(keys: &[SharedKey], from: u16, to: u16) -> Option<[u8; 32]>
    ensures { result ≡ find_key (row keys.now) from to }
{
    let shared = keys
        .iter()
        .find(|shared| shared.from == from && shared.to == to)?;
    Some(shared.key)
}

/// The seed of a party's signatures, derived from that of the configuration. Only replicas sign.
pub fn signing_seed(seed: &[u8; 32], signer: Party) -> [u8; 32]
    ensures { result ≡ signing_seed seed.now (party_number signer) }
{
    let [high, low] = signer.number().to_be_bytes();
    hmac(seed, &[b'S', high, low])
}

// The text that the key from one party to another is derived from.
fn key_text(from: u16, to: u16) -> [u8; 5]
    ensures { result ≡ 0x4d ∷ to_be_bytes w16 from ++ to_be_bytes w16 to }
{
    let [from_high, from_low] = from.to_be_bytes();
    let [to_high, to_low] = to.to_be_bytes();
    [b'M', from_high, from_low, to_high, to_low]
}
