//! Which configurations there are, and the entries and outputs of a step.

use crate::answers::holds;
use events::{BadConfig, Config, Entry, EntryKind, JournalLimit};
use std::alloc::Global;
use terms::{NoMemory, Party, ReplicaId};

// Faults, clients and the period, one faulty replica and one faulty client, and whether they make a configuration.
type Row = (u8, u16, u8, u16, u16, bool);

static ROWS: [Row; 8] = [
    (1, 1, 1, 0, 0, true),
    (3, 256, 16, 9, 255, true),
    (0, 1, 1, 0, 0, false),
    (4, 1, 1, 0, 0, false),
    (1, 257, 1, 0, 0, false),
    (1, 1, 17, 0, 0, false),
    (1, 1, 1, 4, 0, false),
    (1, 1, 1, 0, 1, false),
];

fn is_as_told(alloc: Global, row: Row) -> Result<bool, NoMemory> {
    let (faults, clients, period, replica, client, is_made) = row;
    let replicas = Vec::from_slice(alloc, &[replica])?;
    let named = Vec::from_slice(alloc, &[client])?;
    let made = Config::new(faults, clients, [0; 32], period, replicas, named);
    let is_right = made.is_ok() == is_made;
    drop(made);
    Ok(is_right)
}

fn are_as_told(alloc: Global) -> Result<bool, NoMemory> {
    for &row in &ROWS {
        if !is_as_told(alloc, row)? {
            return Ok(false);
        }
    }
    Ok(true)
}

#[test]
fn numbers_are_in_range(rt: HostRuntime) {
    holds(&rt, are_as_told(rt.alloc()));
}

fn tells_parties(config: &Config) -> bool {
    config.replicas() == 4
        && config.is_correct_replica(0)
        && !config.is_correct_replica(3)
        && !config.is_correct_replica(4)
        && config.is_correct_client(256)
        && !config.is_correct_client(257)
        && !config.is_correct_client(258)
}

// Each key of a configuration's text has a reader of its name.
fn tells_keys(config: &Config) -> bool {
    config.f() == 1
        && config.clients() == 2
        && config.seed() == &[0; 32]
        && config.checkpoint() == 16
        && config.faulty_replicas() == [3].as_slice()
        && config.faulty_clients() == [1].as_slice()
}

fn others_are_correct(alloc: Global) -> Result<bool, NoMemory> {
    let replicas = Vec::from_slice(alloc, &[3])?;
    let clients = Vec::from_slice(alloc, &[1])?;
    match Config::new(1, 2, [0; 32], 16, replicas, clients) {
        Ok(config) => {
            let is_right = tells_parties(&config) && tells_keys(&config);
            drop(config);
            Ok(is_right)
        }
        Err(_) => Ok(false),
    }
}

#[test]
fn the_others_are_correct(rt: HostRuntime) {
    holds(&rt, others_are_correct(rt.alloc()));
}

// How many entries, and whether a journal may have so many.
static LIMITS: [(u32, bool); 5] = [
    (0, false),
    (1, true),
    (65_536, true),
    (65_537, false),
    (u32::MAX, false),
];

fn limits(entries: u32) -> Option<u32> {
    match JournalLimit::new(entries) {
        Ok(limit) => Some(limit.entries),
        Err(BadConfig) => None,
    }
}

#[test]
fn journals_are_limited(rt: HostRuntime) {
    for &(entries, is_limit) in &LIMITS {
        assert!(rt; limits(entries) == if is_limit { Some(entries) } else { None });
    }
}

fn is_tick(entry: &Entry) -> bool {
    match entry.kind() {
        EntryKind::Tick(party) => party.number() == 2,
        _ => false,
    }
}

fn entry_says_tick() -> bool {
    let entry = Entry::new(EntryKind::Tick(Party::Replica(ReplicaId(2))));
    let is_right = is_tick(&entry);
    drop(entry);
    is_right
}

#[test]
fn entries_say_what_happened(rt: HostRuntime) {
    assert!(rt; entry_says_tick());
}
