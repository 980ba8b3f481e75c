//! Levels, and the positions at which they rise.

ghost use Rattle.std.specs.Prelude.{◌≡◌, ◌≤◌, ◌<◌, ◌==◌, ℕ, max, if◌then◌else◌, reverse, slice_index, IfOk, IsFalse};
ghost use Rattle.std.specs.List.Sorted.{IsNonDecreasingBy};
ghost use Rattle.quorum.specs.Quorum.{count_below};
ghost use Rattle.protocol.specs.System.Configuration.{IsConfiguration, replicas};
ghost use Rattle.protocol.specs.Space.Linear.{count_correct};
ghost use Rattle.points.specs.declared.levels.Rise.{Rise as RiseData};
ghost use Rattle.points.specs.Leveling.{RaisesNumbers, level_in, reached_number, rises, number_reached};

use events::{Config, Entry, EntryKind};
use std::alloc::Global;
use terms::{NoMemory, Number, ReplicaId};

/// The greatest number of replicas.
const MAX_REPLICAS: usize = 10;

// The number that each replica reached.
type Numbers = [u64; MAX_REPLICAS];

/// A level, and the position at which it was reached.
#[derive(Clone, Copy, Drop)]
pub(crate) struct Rise {
    pub(crate) level: u64,
    pub(crate) position: usize,
}

/// The positions at which the level of correct replicas rises in a trace, whose oldest entry stands first.
pub(crate) fn find_rises(
    alloc: Global,
    config: &Config,
    trace: &[Entry],
) -> Result<Vec<Rise>, NoMemory>
    ensures found { IfOk result
        (λ found. reverse found.items ≡ rises config.now (reverse trace.now)) }
    ensures rising { IfOk result
        (λ found. IsNonDecreasingBy (λ (x : RiseData). x.level) found.items) }
{
    let correct = count_correct(config);
    let mut reached: Numbers = [0; MAX_REPLICAS];
    let mut level = 0;
    let mut found = Vec::new(alloc);
    for (position, entry) in trace.iter().enumerate() {
        let now = level_behind(config, correct, &mut reached, level, entry);
        if level < now {
            found.push(Rise {
                level: now,
                position,
            })?;
            level = now;
        }
    }
    Ok(found)
}

// The level after an entry, by the level before. Only an execution or installation can raise it.
fn level_behind(
    config: &Config,
    correct: u16,
    reached: &mut Numbers,
    level: u64,
    entry: &Entry,
) -> u64
    requires correct { correct ≡ count_correct config.now }
    requires level { level ≡ level_in config.now reached.old }
    ensures raises { RaisesNumbers entry.now reached.old reached.new }
    ensures level { result ≡ level_in config.now reached.new }
{
    if raise(reached, entry) {
        level_in(config, correct, reached)
    } else {
        level
    }
}

// Whether the entry raised the number that a replica reached.
fn raise(reached: &mut Numbers, entry: &Entry) -> bool
    ensures raises { RaisesNumbers entry.now reached.old reached.new }
    ensures same { IsFalse result → reached.new ≡ reached.old }
{
    match entry.kind() {
        EntryKind::Executed(replica, number, _) => raise_to(reached, *replica, *number),
        EntryKind::Installed(replica, number, _) => raise_to(reached, *replica, *number),
        _ => false,
    }
}

fn raise_to(reached: &mut Numbers, replica: ReplicaId, number: Number) -> bool
    ensures raises { (r : ℕ) → r < 10 → slice_index reached.new r
        ≡ max (if replica.0 == r then number.0 else 0) (slice_index reached.old r) }
    ensures same { IsFalse result → reached.new ≡ reached.old }
{
    let place = usize::from(replica.0);
    if place < MAX_REPLICAS && reached[place] < number.0 {
        reached[place] = number.0;
        true
    } else {
        false
    }
}

fn count_correct(config: &Config) -> u16
    ensures value { result ≡ count_correct config.now }
    ensures few { result ≤ 10 }
    ensures valid { IsConfiguration config.now }
{
    let mut count = 0;
    for replica in 0..3 * u16::from(config.faults()) + 1 {
        if config.is_correct_replica(replica) {
            count += 1;
        }
    }
    count
}

// How many correct replicas reached the number.
fn count_passing(config: &Config, reached: &Numbers, number: u64) -> u16
    ensures value { result
        ≡ count_below (reached_number config.now reached.now number) (replicas config.now) }
    ensures few { result ≤ 10 }
{
    let mut count = 0;
    for replica in 0..3 * u16::from(config.faults()) + 1 {
        if passes(config, reached, number, replica) {
            count += 1;
        }
    }
    count
}

fn passes(config: &Config, reached: &Numbers, number: u64, replica: u16) -> bool
    requires { replica < 10 }
    ensures { result ≡ reached_number config.now reached.now number replica }
{
    config.is_correct_replica(replica) && number <= reached[usize::from(replica)]
}

// The number that the replica reached, if all but f of the correct ones did.
fn value_at(config: &Config, correct: u16, reached: &Numbers, replica: usize) -> u64
    requires correct { correct ≡ count_correct config.now }
    requires few { replica < 10 }
    ensures { result ≡ number_reached config.now reached.now replica }
{
    let number = reached[replica];
    if correct <= count_passing(config, reached, number) + u16::from(config.faults()) {
        number
    } else {
        0
    }
}

// The greatest number that all but f of the correct replicas reached.
fn level_in(config: &Config, correct: u16, reached: &Numbers) -> u64
    requires { correct ≡ count_correct config.now }
    ensures { result ≡ level_in config.now reached.now }
{
    let mut level = 0;
    for replica in 0..3 * usize::from(config.faults()) + 1 {
        level = value_at(config, correct, reached, replica).max(level);
    }
    level
}
