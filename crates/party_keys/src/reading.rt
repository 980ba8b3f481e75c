//! From the text of a file to a party's keys.

ghost use Rattle.std.specs.Prelude.{◌≡◌, ◌↔◌, ◌≤◌, pos, slice_get, string_bytes, IsTrue, None, Some, option_map};
ghost use Rattle.std.specs.List.{list_all, list_any};
ghost use Rattle.std.specs.BTreeMap.{keys};
ghost use Rattle.std.specs.Str.{IsUtf8, bytes_eq};
ghost use Rattle.toml.specs.Errors.{IsMemory, IsWithin};
ghost use Rattle.toml.specs.Parse.{parse_document};
ghost use Rattle.toml.specs.Data.{as_integer, get_member};
ghost use Rattle.toml.specs.View.{table_view, view};
ghost use Rattle.terms.specs.Parties.{party_number};
ghost use Rattle.party_keys.specs.Names.{key_name};
ghost use Rattle.signing.specs.Signatures.{public_key};
ghost use Rattle.party_keys.specs.Reading.{HasSeed, IsKeyText, KeyHasNumber};
ghost use Rattle.party_keys.specs.Judging.{is_known, Because, IsUpTo, JudgesFile, JudgesKey, JudgesNumber, JudgesParty, JudgesSeed, JudgesTable};

use crate::fault::{FileFault, Place, ShownKey};
use crate::key::{KEYS, Key};
use crate::lists::{key_in, keys_under, peers};
use crate::party_keys::PartyKeys;
use crate::place::place_after;
use signing::KeyTree;
use std::alloc::Global;
use terms::{ClientId, FIRST_CLIENT, MAX_CLIENTS, Party, ReplicaId};
use toml::{Table, Value};

/// Most bytes of a file. The longest that is written takes 39,000; the others are room for comments.
pub const MAX_FILE: usize = 65_536;

const MAX_FAULTS: u32 = 3;

const MAX_PERIOD: u32 = 16;

/// Reads the file of a party.
///
/// # Errors
///
/// Why the text is no party's file, or [`FileFault::NoMemory`] if memory runs out.
pub fn read_file(alloc: Global, text: &[u8]) -> Result<PartyKeys, FileFault>
    // The given keys are those that the text says, and a refused text says none.
    ensures { JudgesFile text.now result }
{
    if text.len() > MAX_FILE {
        return Err(FileFault::TooLong);
    }
    match toml::table_from_slice(alloc, text) {
        Ok(table) => read_table(alloc, &table),
        Err(error) => Err(no_toml(text, error)),
    }
}

// Why a text gives no table.
fn no_toml(text: &[u8], error: toml::de::Error) -> FileFault
    requires within { IsWithin text.now error }
    requires refused { ¬ IsMemory error → IsUtf8 text.now → parse_document text.now ≡ None }
    ensures { Because result (IsUtf8 text.now → parse_document text.now ≡ None) }
{
    // After out of memory the error has no place in the text.
    let Some(span) = error.span() else {
        return FileFault::NoMemory;
    };
    let (line, column) = place_after(&text[..span.start]);
    FileFault::NoToml {
        line,
        column,
        error,
    }
}

fn read_table(alloc: Global, table: &Table) -> Result<PartyKeys, FileFault>
    ensures { JudgesTable (table_view table.now) result }
{
    if !has_known_keys(table) {
        return Err(FileFault::UnknownKey(ShownKey::of(unknown_key(table))));
    }
    let faults = number(table, Key::Faults, MAX_FAULTS)? as u8;
    let clients = number(table, Key::Clients, MAX_CLIENTS as u32)? as u16;
    let period = number(table, Key::Checkpoint, MAX_PERIOD)? as u8;
    let me = party(table, faults, clients)?;
    let count = peers(alloc, faults, clients, me.number())?.len();
    let from = keys_under(alloc, table, Key::From, count)?;
    let to = keys_under(alloc, table, Key::To, count)?;
    let publics = keys_under(alloc, table, Key::Public, 3 * usize::from(faults) + 1)?;
    let seed = own_seed(table, me, publics.as_slice())?;
    Ok(PartyKeys {
        me,
        faults,
        clients,
        period,
        from,
        to,
        publics,
        seed,
    })
}

fn has_known_keys(table: &Table) -> bool
    ensures { result ≡ list_all (λ key. is_known (string_bytes key)) (keys table.now) }
{
    table.keys().all(|key| is_known(key.as_str()))
}

// The first key that the file of no party has. There is one.
fn unknown_key(table: &Table) -> &str {
    match table.keys().find(|key| !is_known(key.as_str())) {
        Some(key) => key.as_str(),
        None => "",
    }
}

fn is_known(key: &str) -> bool
    ensures { result ≡ is_known key.now }
{
    is_among(&KEYS, key)
}

fn is_among(keys: &[&str], key: &str) -> bool
    ensures { result ≡ list_any (λ known. bytes_eq key.now known.now) keys.now }
{
    keys.iter().any(|known| key == *known)
}

/// The value under this key.
pub(crate) fn find<'a>(table: &'a Table, key: &str) -> Option<&'a Value>
    ensures { option_map (λ v. view v.now) result ≡ get_member key.now (table_view table.now) }
{
    table.get(key)
}

// The number under this key, from 1 to the most.
fn number(table: &Table, key: Key, most: u32) -> Result<u32, FileFault>
    ensures { JudgesNumber (KeyHasNumber (table_view table.now) (key_name key)) most result }
{
    match find(table, key.name()) {
        Some(value) => number_in(value, key, most),
        None => Err(FileFault::Missing(key)),
    }
}

fn number_in(value: &Value, key: Key, most: u32) -> Result<u32, FileFault>
    ensures { JudgesNumber (λ n. as_integer (view value.now) ≡ Some (pos n)) most result }
{
    let Some(number) = value.as_integer() else {
        return Err(FileFault::NoNumber(key));
    };
    match u32::try_from(number) {
        Ok(number) if number >= 1 && number <= most => Ok(number),
        _ => Err(FileFault::OutOfRange { key, number, most }),
    }
}

// The party whose number stands in the table, of so many replicas and clients.
fn party(table: &Table, faults: u8, clients: u16) -> Result<Party, FileFault>
    requires few { faults ≤ 3 }
    requires some { 1 ≤ clients }
    requires clients { clients ≤ 256 }
    ensures { JudgesParty (KeyHasNumber (table_view table.now) (key_name Key.Party)) faults clients result }
{
    match find(table, Key::Party.name()) {
        Some(value) => party_in(value, faults, clients),
        None => Err(FileFault::Missing(Key::Party)),
    }
}

fn party_in(value: &Value, faults: u8, clients: u16) -> Result<Party, FileFault>
    requires few { faults ≤ 3 }
    requires some { 1 ≤ clients }
    requires clients { clients ≤ 256 }
    ensures { JudgesParty (λ n. as_integer (view value.now) ≡ Some (pos n)) faults clients result }
{
    let Some(number) = value.as_integer() else {
        return Err(FileFault::NoNumber(Key::Party));
    };
    let last_replica = 3 * u16::from(faults);
    let last_client = FIRST_CLIENT + (clients - 1);
    match u16::try_from(number) {
        Ok(number) if number <= last_replica => Ok(Party::Replica(ReplicaId(number as u8))),
        Ok(number) if number >= FIRST_CLIENT && number <= last_client => {
            Ok(Party::Client(ClientId {
                number: number - FIRST_CLIENT,
            }))
        }
        _ => Err(FileFault::NoParty {
            number,
            last_replica,
            last_client,
        }),
    }
}

// The signing seed of a party: a replica's, which gives its public key. A client has none.
fn own_seed(table: &Table, me: Party, publics: &[[u8; 32]]) -> Result<Option<[u8; 32]>, FileFault>
    ensures { JudgesSeed (HasSeed (table_view table.now)) publics.now (party_number me) result }
{
    match (find(table, Key::SigningSeed.name()), me) {
        (None, Party::Client(_)) => Ok(None),
        (None, Party::Replica(_)) => Err(FileFault::Missing(Key::SigningSeed)),
        (Some(_), Party::Client(_)) => Err(FileFault::SeedOfClient),
        (Some(value), Party::Replica(replica)) => {
            let seed = key_in(value, Key::SigningSeed, Place::Alone)?;
            if is_own(&seed, replica, publics) {
                Ok(Some(seed))
            } else {
                Err(FileFault::OtherSeed { replica: replica.0 })
            }
        }
    }
}

// Whether the seed gives the public key of this replica.
fn is_own(seed: &[u8; 32], replica: ReplicaId, publics: &[[u8; 32]]) -> bool
    ensures { IsTrue result ↔ (slice_get publics.now replica.0 ≡ Some (public_key seed.now)) }
{
    match public_of(publics, replica) {
        Some(public) => public == KeyTree::new(seed).public(),
        None => false,
    }
}

fn public_of(publics: &[[u8; 32]], replica: ReplicaId) -> Option<[u8; 32]>
    ensures { result ≡ slice_get publics.now replica.0 }
{
    publics.get(usize::from(replica.0)).copied()
}
