//! From the text of a configuration to its values.

ghost use Rattle.std.specs.Prelude.{◌≡◌, ◌==◌, pos, string_bytes, Some, None, option_map};
ghost use Rattle.std.specs.List.{list_any, list_all};
ghost use Rattle.std.specs.BTreeMap.{keys};
ghost use Rattle.std.specs.Str.{IsUtf8, bytes_eq};
ghost use Rattle.toml.specs.Errors.{IsMemory, IsWithin};
ghost use Rattle.toml.specs.Parse.{parse_document};
ghost use Rattle.toml.specs.Data.{get_member, as_integer};
ghost use Rattle.toml.specs.View.{view, items_view, table_view};
ghost use Rattle.config_text.specs.Keys.{key_name};
ghost use Rattle.config_text.specs.Reading.{KeyHasNumber, HasNumberOr, HasNumbers, AreNumbers, HasSeed};
ghost use Rattle.config_text.specs.Judging.{is_known, Because, IsUpTo, JudgesSettings, JudgesTable, JudgesParties, JudgesNumber, JudgesNumbers, JudgesParty, JudgesSeed};

use crate::fault::{ConfigFault, ShownKey};
use crate::key::{KEYS, Key};
use crate::place::place_after;
use crate::settings::Settings;
use events::Config;
use hex::{FromHex, FromHexError};
use std::alloc::Global;
use terms::MAX_CLIENTS;
use toml::{Table, Value};

/// Most bytes of a configuration. Its values take under 4,000; the others are room for comments.
pub const MAX_CONFIG: usize = 65_536;

// Most faulty replicas, and most batches from one checkpoint to the next, also their number if the text doesn't say
// it.
const MAX_FAULTS: u32 = 3;

const MAX_PERIOD: u32 = 16;

// Most entries of a journal; also their number if the text doesn't say it.
const MAX_JOURNAL: u32 = 65_536;

/// Reads the text of a configuration.
///
/// # Errors
///
/// Why the text gives no configuration, or [`ConfigFault::NoMemory`] if memory runs out.
pub fn read_config(alloc: Global, text: &[u8]) -> Result<Settings, ConfigFault>
    // The given settings are those that the text says, and a refused text says no configuration.
    ensures { JudgesSettings text.now result }
{
    if text.len() > MAX_CONFIG {
        return Err(ConfigFault::TooLong);
    }
    match toml::table_from_slice(alloc, text) {
        Ok(table) => read_table(alloc, &table),
        Err(error) => Err(no_toml(text, error)),
    }
}

// Why a text gives no table.
fn no_toml(text: &[u8], error: toml::de::Error) -> ConfigFault
    requires within { IsWithin text.now error }
    requires refused { ¬ IsMemory error → IsUtf8 text.now → parse_document text.now ≡ None }
    ensures { Because result (IsUtf8 text.now → parse_document text.now ≡ None) }
{
    // After out of memory the error has no place in the text.
    let Some(span) = error.span() else {
        return ConfigFault::NoMemory;
    };
    let (line, column) = place_after(&text[..span.start]);
    ConfigFault::NoToml {
        line,
        column,
        error,
    }
}

fn read_table(alloc: Global, table: &Table) -> Result<Settings, ConfigFault>
    ensures { JudgesTable (table_view table.now) result }
{
    if !has_known_keys(table) {
        return Err(ConfigFault::UnknownKey(ShownKey::of(unknown_key(table))));
    }
    let journal = number_or(table, Key::Journal, MAX_JOURNAL, MAX_JOURNAL)?;
    let config = read_parties(alloc, table)?;
    Ok(Settings { config, journal })
}

fn has_known_keys(table: &Table) -> bool
    ensures { result ≡ list_all (λ key. is_known (string_bytes key)) (keys table.now) }
{
    table.keys().all(|key| is_known(key.as_str()))
}

// The first key that no configuration has. There is one.
fn unknown_key(table: &Table) -> &str {
    match table.keys().find(|key| !is_known(key.as_str())) {
        Some(key) => key.as_str(),
        None => "",
    }
}

// The ranges are those of a configuration.
fn read_parties(alloc: Global, table: &Table) -> Result<Config, ConfigFault>
    ensures { JudgesParties (table_view table.now) result }
{
    let faults = number(table, Key::Faults, MAX_FAULTS)? as u8;
    let clients = number(table, Key::Clients, MAX_CLIENTS as u32)? as u16;
    let seed = read_seed(table)?;
    let period = number_or(table, Key::Checkpoint, MAX_PERIOD, MAX_PERIOD)? as u8;
    let replicas = 3 * u16::from(faults) + 1;
    let faulty_replicas = numbers(alloc, table, Key::FaultyReplicas, replicas)?;
    if faulty_replicas.len() > usize::from(faults) {
        return Err(ConfigFault::TooManyFaulty {
            named: faulty_replicas.len(),
            faults,
        });
    }
    let faulty_clients = numbers(alloc, table, Key::FaultyClients, clients)?;
    match Config::new(
        faults,
        clients,
        seed,
        period,
        faulty_replicas,
        faulty_clients,
    ) {
        Ok(config) => Ok(config),
        Err(_) => unreachable!(),
    }
}

fn is_known(key: &str) -> bool
    ensures { result ≡ is_known key.now }
{
    is_among(&KEYS, key)
}

fn is_among(keys: &[&str], key: &str) -> bool
    ensures { result ≡ list_any (λ known. bytes_eq key.now known.now) keys.now }
{
    keys.iter().any(|known| key == *known)
}

fn find<'a>(table: &'a Table, key: &str) -> Option<&'a Value>
    ensures { option_map (λ v. view v.now) result ≡ get_member key.now (table_view table.now) }
{
    table.get(key)
}

// The number under this key, from 1 to the most.
fn number(table: &Table, key: Key, most: u32) -> Result<u32, ConfigFault>
    ensures { JudgesNumber (KeyHasNumber (table_view table.now) (key_name key)) most result }
{
    match find(table, key.name()) {
        Some(value) => number_in(value, key, most),
        None => Err(ConfigFault::Missing(key)),
    }
}

// The same, or the default if the key isn't there.
fn number_or(table: &Table, key: Key, most: u32, default: u32) -> Result<u32, ConfigFault>
    requires { IsUpTo most default }
    ensures { JudgesNumber (HasNumberOr (table_view table.now) (key_name key) default) most result }
{
    match find(table, key.name()) {
        Some(value) => number_in(value, key, most),
        None => Ok(default),
    }
}

fn number_in(value: &Value, key: Key, most: u32) -> Result<u32, ConfigFault>
    ensures { JudgesNumber (λ n. as_integer (view value.now) ≡ Some (pos n)) most result }
{
    let Some(number) = value.as_integer() else {
        return Err(ConfigFault::NoNumber(key));
    };
    match u32::try_from(number) {
        Ok(number) if number >= 1 && number <= most => Ok(number),
        _ => Err(ConfigFault::OutOfRange { key, number, most }),
    }
}

// The numbers of parties under this key, each below the number of parties, and none twice. A list that isn't there is
// empty.
fn numbers(alloc: Global, table: &Table, key: Key, parties: u16) -> Result<Vec<u16>, ConfigFault>
    ensures { JudgesNumbers (HasNumbers (table_view table.now) (key_name key)) parties result }
{
    let Some(value) = find(table, key.name()) else {
        return Ok(Vec::new(alloc));
    };
    match value.as_array() {
        Some(items) => numbers_of(alloc, items.as_slice(), key, parties),
        None => Err(ConfigFault::NoNumbers(key)),
    }
}

fn numbers_of(
    alloc: Global,
    items: &[Value],
    key: Key,
    parties: u16,
) -> Result<Vec<u16>, ConfigFault>
    ensures { JudgesNumbers (AreNumbers (items_view items.now)) parties result }
{
    let mut numbers = Vec::new(alloc);
    for item in items {
        let number = party_in(item, key, parties)?;
        if has(numbers.as_slice(), number) {
            return Err(ConfigFault::NamedTwice { key, number });
        }
        numbers.push(number)?;
    }
    Ok(numbers)
}

fn has(numbers: &[u16], number: u16) -> bool
    ensures { result ≡ list_any (λ x. x == number) numbers.now }
{
    numbers.iter().any(|x| *x == number)
}

fn party_in(item: &Value, key: Key, parties: u16) -> Result<u16, ConfigFault>
    ensures { JudgesParty (λ n. as_integer (view item.now) ≡ Some (pos n)) parties result }
{
    let Some(number) = item.as_integer() else {
        return Err(ConfigFault::NoNumbers(key));
    };
    match u16::try_from(number) {
        Ok(number) if number < parties => Ok(number),
        _ => Err(ConfigFault::NoParty {
            key,
            number,
            parties,
        }),
    }
}

fn read_seed(table: &Table) -> Result<[u8; 32], ConfigFault>
    ensures { JudgesSeed (HasSeed (table_view table.now)) result }
{
    let Some(value) = find(table, Key::Seed.name()) else {
        return Err(ConfigFault::Missing(Key::Seed));
    };
    let Some(digits) = value.as_str() else {
        return Err(ConfigFault::NoSeed);
    };
    match <[u8; 32] as FromHex>::from_hex(digits) {
        Ok(seed) => Ok(seed),
        Err(FromHexError::OutOfMemory) => Err(ConfigFault::NoMemory),
        Err(FromHexError::InvalidHexCharacter { index, .. }) => Err(ConfigFault::SeedDigit(index)),
        Err(FromHexError::OddLength | FromHexError::InvalidStringLength) => {
            Err(ConfigFault::SeedLength(digits.len()))
        }
    }
}
