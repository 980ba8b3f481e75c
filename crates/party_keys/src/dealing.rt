//! The keys that a configuration gives a party.

ghost use Rattle.std.specs.Prelude.{◌≡◌, ◌==◌, ◌+◌, ◌*◌, IfOk, IfSome, IsTrue, All, filter, length, map};
ghost use Rattle.hex.specs.Hex.{IsBytes};
ghost use Rattle.terms.specs.Parties.{party_number};
ghost use Rattle.party_keys.specs.Dealing.{keys_of, seed_of};
ghost use Rattle.party_keys.specs.PartyData.{IsKey, takes_part};

use crate::party_keys::PartyKeys;
use authenticator::{SharedKey, deal, signing_seed};
use events::Config;
use signing::PublicKeys;
use std::alloc::{AllocError, Global};
use terms::{NoMemory, Party, ReplicaId};

impl PartyKeys {
    /// The keys that a configuration gives one of its parties.
    pub fn deal(
        alloc: Global,
        config: &Config,
        publics: &PublicKeys,
        me: Party,
    ) -> Result<PartyKeys, NoMemory>
        requires publics { publics.now ≡ config.now.publics }
        requires part { IsTrue (takes_part config.now.faults config.now.clients (party_number me)) }
        ensures { IfOk result (λ k. k ≡ keys_of config.now (party_number me)) }
    {
        let row = deal(alloc, config.seed(), config.faults(), config.clients(), me)?;
        let from = keys_to(alloc, row.as_slice(), me.number())?;
        let to = keys_from(alloc, row.as_slice(), me.number())?;
        let publics = public_keys(alloc, publics, config.replicas())?;
        let seed = seed_of(config, me);
        note_keys(from.as_slice());
        note_keys(to.as_slice());
        note_keys(publics.as_slice());
        note_seed(&seed);
        Ok(PartyKeys {
            me,
            faults: config.faults(),
            clients: config.clients(),
            period: config.period(),
            from,
            to,
            publics,
            seed,
        })
    }
}

// A replica signs, and a client doesn't.
fn seed_of(config: &Config, me: Party) -> Option<[u8; 32]>
    ensures { result ≡ seed_of config.now (party_number me) }
{
    match me {
        Party::Replica(_) => Some(signing_seed(config.seed(), me)),
        Party::Client(_) => None,
    }
}

// The keys of a row to this party.
fn keys_to(alloc: Global, row: &[SharedKey], me: u16) -> Result<Vec<[u8; 32]>, AllocError>
    ensures { IfOk result (λ keys. keys.items ≡ map (λ s. s.key) (filter (λ s. s.to == me) row.now)) }
{
    let mut keys = Vec::new(alloc);
    for shared in row {
        if shared.to == me {
            keys.push(shared.key)?;
        }
    }
    Ok(keys)
}

// The keys of a row from this party.
fn keys_from(alloc: Global, row: &[SharedKey], me: u16) -> Result<Vec<[u8; 32]>, AllocError>
    ensures { IfOk result (λ keys. keys.items ≡ map (λ s. s.key) (filter (λ s. s.from == me) row.now)) }
{
    let mut keys = Vec::new(alloc);
    for shared in row {
        if shared.from == me {
            keys.push(shared.key)?;
        }
    }
    Ok(keys)
}

// The public keys of so many replicas.
fn public_keys(alloc: Global, publics: &PublicKeys, replicas: u8) -> Result<Vec<[u8; 32]>, NoMemory>
    requires { length publics.now ≡ replicas }
    ensures { IfOk result (λ keys. keys.items ≡ publics.now) }
{
    let mut keys = Vec::new(alloc);
    for replica in 0..replicas {
        match publics.public(Party::Replica(ReplicaId(replica))) {
            Some(key) => keys.push(key)?,
            None => unreachable!(),
        }
    }
    Ok(keys)
}

// A key has 32 bytes.
fn note_key(key: &[u8; 32])
    ensures { IsKey key.now }
{
    note_bytes(key);
}

fn note_bytes(bytes: &[u8])
    ensures { IsBytes bytes.now }
{
    let _len = bytes.len();
}

fn note_keys(keys: &[[u8; 32]])
    ensures { All IsKey keys.now }
{
    for key in keys {
        note_key(key);
    }
}

fn note_seed(seed: &Option<[u8; 32]>)
    ensures { IfSome seed.now IsKey }
{
    if let Some(seed) = seed {
        note_key(seed);
    }
}
