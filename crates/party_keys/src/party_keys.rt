//! The keys of one party.

ghost use Rattle.std.specs.Prelude.{◌≡◌, ◌++◌, ◌∷◌, [], IfOk, IfSome, OnOk, Some, option_map, slice_get};
ghost use Rattle.signing.specs.Signatures.{public_key};
ghost use Rattle.terms.specs.Parties.{party_number};
ghost use Rattle.party_keys.specs.Dealing.{IsRingOf};
ghost use Rattle.party_keys.specs.PartyData.{pairs_with, ring_of, row_of};

use crate::lists::peers;
use authenticator::{Ring, SharedKey};
use signing::{PublicKeys, Signer};
use std::alloc::{AllocError, Global};
use std::marker::Model;
use terms::{NoMemory, Party};

/// The keys of one party: what it may know, and nothing else. They are not shown and not copied.
#[derive(Drop)]
pub struct PartyKeys {
    pub(crate) me: Party,
    pub(crate) faults: u8,
    pub(crate) clients: u16,
    pub(crate) period: u8,
    pub(crate) from: Vec<[u8; 32]>,
    pub(crate) to: Vec<[u8; 32]>,
    pub(crate) publics: Vec<[u8; 32]>,
    pub(crate) seed: Option<[u8; 32]>,
}

impl Model for PartyKeys {
    ghost use Rattle.party_keys.specs.PartyData.{PartyData, IsPartyData};
    ghost use Rattle.party_keys.specs.KeysView.{keys_data};

    ghost Value = { PartyData };

    ghost view = { keys_data };

    ghost invariant = { λ k. IsPartyData (keys_data k) };
}

impl PartyKeys {
    ghost use Rattle.party_keys.specs.PartyData.{IsPartyData};

    /// The party whose keys these are.
    pub fn party(&self) -> Party
        ensures value { party_number result ≡ self.now.party }
        ensures valid { IsPartyData self.now }
    {
        self.me
    }

    /// How many replicas may be faulty, 1 to 3.
    pub fn faults(&self) -> u8
        ensures value { result ≡ self.now.faults }
    {
        self.faults
    }

    /// How many clients there are, 1 to 256.
    pub fn clients(&self) -> u16
        ensures value { result ≡ self.now.clients }
    {
        self.clients
    }

    /// The number of batches from one checkpoint to the next, 1 to 16.
    pub fn period(&self) -> u8
        ensures value { result ≡ self.now.period }
    {
        self.period
    }

    /// A ring of the party's row of keys.
    pub fn ring(&self, alloc: Global) -> Result<Ring, NoMemory>
        ensures value { IfOk result (λ ring. ring ≡ ring_of self.now) }
        ensures members { IfOk result (IsRingOf self.now) }
    {
        Ring::of_party(alloc, self.faults, self.clients, self.row(alloc)?)
    }

    // The party's row of keys.
    fn row(&self, alloc: Global) -> Result<Vec<SharedKey>, NoMemory>
        ensures { IfOk result (λ row. row.items ≡ row_of self.now) }
    {
        let parties = peers(alloc, self.faults, self.clients, self.me.number())?;
        let mut row = Vec::new(alloc);
        push_pairs(
            self.me.number(),
            parties.as_slice(),
            self.from.as_slice(),
            self.to.as_slice(),
            &mut row,
        )?;
        Ok(row)
    }

    /// The public keys of all replicas.
    pub fn publics(&self, alloc: Global) -> Result<PublicKeys, NoMemory>
        ensures { IfOk result (λ publics. publics ≡ self.now.publics) }
    {
        PublicKeys::of_replicas(alloc, Vec::from_slice(alloc, self.publics.as_slice())?)
    }

    /// The signer of a replica, with all leaves unused. A client has none. Each call gives one that begins with the
    /// first leaf, so a replica takes one in its life.
    pub fn signer(&self) -> Option<Signer>
        ensures seed { option_map (λ s. s.seed) result ≡ self.now.seed }
        ensures unused { IfSome result (λ s. s.used ≡ 0) }
        ensures own { IfSome result (λ s. slice_get self.now.publics self.now.party ≡ Some (public_key s.seed)) }
    {
        match &self.seed {
            Some(seed) => Some(Signer::from_seed(seed)),
            None => None,
        }
    }
}

// Appends the keys from and to each of these parties.
fn push_pairs(
    me: u16,
    parties: &[u16],
    from: &[[u8; 32]],
    to: &[[u8; 32]],
    row: &mut Vec<SharedKey>,
) -> Result<(), AllocError>
    ensures { OnOk result (row.new.items ≡ row.old.items ++ pairs_with me parties.now from.now to.now) }
{
    let [party, parties @ ..] = parties else {
        return Ok(());
    };
    let [first, from @ ..] = from else {
        return Ok(());
    };
    let [second, to @ ..] = to else {
        return Ok(());
    };
    push_both(me, *party, *first, *second, row)?;
    push_pairs(me, parties, from, to, row)
}

fn push_both(
    me: u16,
    party: u16,
    from: [u8; 32],
    to: [u8; 32],
    row: &mut Vec<SharedKey>,
) -> Result<(), AllocError>
    ensures { OnOk result (row.new.items ≡ row.old.items ++ record { from = party; to = me; key = from }
        ∷ record { from = me; to = party; key = to } ∷ []) }
{
    row.push(SharedKey {
        from: party,
        to: me,
        key: from,
    })?;
    row.push(SharedKey {
        from: me,
        to: party,
        key: to,
    })?;
    Ok(())
}
