//! The keys of a list, and the parties whose keys they are.

ghost use Rattle.std.specs.Prelude.{◌≡◌, ◌++◌, ◌≤◌, [], length, IfOk, OnOk};
ghost use Rattle.toml.specs.View.{items_view, table_view, view};
ghost use Rattle.authenticator.specs.Dealing.{all_clients, clients_of, other_replicas, others_among, peers};
ghost use Rattle.party_keys.specs.Judging.{JudgesKey, JudgesKeys};
ghost use Rattle.party_keys.specs.Names.{key_name};
ghost use Rattle.party_keys.specs.Reading.{AreKeyTexts, HasKeys, IsKeyText};

use crate::fault::{FileFault, Place};
use crate::key::Key;
use crate::reading::find;
use hex::{FromHex, FromHexError};
use std::alloc::{AllocError, Global};
use terms::FIRST_CLIENT;
use toml::{Table, Value};

/// So many keys, in the array under this one.
pub(crate) fn keys_under(
    alloc: Global,
    table: &Table,
    key: Key,
    count: usize,
) -> Result<Vec<[u8; 32]>, FileFault>
    ensures { JudgesKeys (HasKeys (table_view table.now) (key_name key)) count result }
{
    let Some(value) = find(table, key.name()) else {
        return Err(FileFault::Missing(key));
    };
    let Some(items) = value.as_array() else {
        return Err(FileFault::NoArray(key));
    };
    let items = items.as_slice();
    if items.len() != count {
        return Err(FileFault::Length {
            key,
            keys: items.len(),
            wanted: count,
        });
    }
    keys_of(alloc, items, key)
}

fn keys_of(alloc: Global, items: &[Value], key: Key) -> Result<Vec<[u8; 32]>, FileFault>
    ensures { JudgesKeys (AreKeyTexts (items_view items.now)) (length items.now) result }
{
    let mut keys = Vec::new(alloc);
    for (index, item) in items.iter().enumerate() {
        keys.push(key_in(item, key, Place::At(index))?)?;
    }
    Ok(keys)
}

/// The key in a value.
pub(crate) fn key_in(value: &Value, key: Key, place: Place) -> Result<[u8; 32], FileFault>
    ensures { JudgesKey (IsKeyText (view value.now)) result }
{
    let Some(digits) = value.as_str() else {
        return Err(FileFault::NoString { key, place });
    };
    match <[u8; 32] as FromHex>::from_hex(digits) {
        Ok(bytes) => Ok(bytes),
        Err(FromHexError::OutOfMemory) => Err(FileFault::NoMemory),
        Err(FromHexError::InvalidHexCharacter { index, .. }) => {
            Err(FileFault::NoDigit { key, place, index })
        }
        Err(FromHexError::OddLength | FromHexError::InvalidStringLength) => {
            Err(FileFault::Digits {
                key,
                place,
                digits: digits.len(),
            })
        }
    }
}

/// The parties that this one exchanges frames with, in the order of its keys.
pub(crate) fn peers(
    alloc: Global,
    faults: u8,
    clients: u16,
    me: u16,
) -> Result<Vec<u16>, AllocError>
    requires few { faults ≤ 3 }
    requires clients { clients ≤ 256 }
    ensures { IfOk result (λ parties. parties.items ≡ peers faults clients me) }
{
    let mut parties = Vec::new(alloc);
    push_replicas(faults, me, &mut parties)?;
    push_clients(clients_of(me, clients), &mut parties)?;
    Ok(parties)
}

// How many clients a party exchanges frames with: a replica with all, a client with none.
fn clients_of(me: u16, clients: u16) -> u16
    ensures { result ≡ clients_of me clients }
{
    if me < FIRST_CLIENT { clients } else { 0 }
}

fn push_replicas(faults: u8, me: u16, parties: &mut Vec<u16>) -> Result<(), AllocError>
    ensures { OnOk result (parties.new.items ≡ parties.old.items ++ other_replicas faults me) }
{
    for party in 0..3 * u16::from(faults) + 1 {
        if party != me {
            parties.push(party)?;
        }
    }
    Ok(())
}

fn push_clients(clients: u16, parties: &mut Vec<u16>) -> Result<(), AllocError>
    requires { clients ≤ 256 }
    ensures { OnOk result (parties.new.items ≡ parties.old.items ++ all_clients clients) }
{
    for client in 0..clients {
        parties.push(FIRST_CLIENT + client)?;
    }
    Ok(())
}
