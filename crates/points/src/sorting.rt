//! Points in their order.

ghost use Rattle.std.specs.Prelude.{◌≡◌, ℕ, ◌<◌, ◌+◌, ◌^◌, [], map, option_map, IfOk, OnOk};
ghost use Rattle.protocol.specs.Space.Linear.{insert_point};
ghost use Rattle.points.specs.PointView.{items_of, placing_of, placings_of};
ghost use Rattle.points.specs.Sorting.{AddsRead, AreRankedAbove, MergesInto, sorting_key, sorted_of};

use crate::point::{Placed, Point};
use std::alloc::Global;
use std::collections::{BTreeMap, BTreeSet};
use terms::{Mode, NoMemory, Party};

/// The order of points: by position, by number, ordered ones before reads, and then by client and timestamp of reads.
/// Of points that are equal in all of this, the one with the lower rank comes first.
#[derive(Clone, Copy, PartialEq, Eq, PartialOrd, Ord, Drop)]
pub(crate) struct Key {
    position: usize,
    number: u64,
    turn: u8,
    client: u16,
    timestamp: u64,
    rank: usize,
}

/// A client's call, by the numbers of both.
#[derive(Clone, Copy, PartialEq, Eq, PartialOrd, Ord, Drop)]
pub(crate) struct CallKey {
    client: u16,
    timestamp: u64,
}

/// Points in their order.
pub(crate) type Sorted = BTreeMap<Key, Placed>;

/// Reads in their order, and their calls.
#[derive(Drop)]
pub(crate) struct Reads {
    sorted: Sorted,
    calls: BTreeSet<CallKey>,
}

impl Reads {
    pub(crate) fn new(alloc: Global) -> Reads
        ensures sorted { result.sorted.entries ≡ [] }
        ensures calls { result.calls.keys ≡ [] }
    {
        Reads {
            sorted: BTreeMap::new(alloc),
            calls: BTreeSet::new(alloc),
        }
    }

    /// Adds a read, if there is one, with a rank below those before.
    pub(crate) fn add(&mut self, rank: usize, read: Option<Placed>) -> Result<(), NoMemory>
        requires { AreRankedAbove rank self.old.sorted.entries }
        ensures { OnOk result (AddsRead rank (option_map placing_of read) self.old self.new) }
    {
        let Some(placed) = read else {
            return Ok(());
        };
        match self.calls.insert(call_of(&placed)) {
            Ok(_) => put(&mut self.sorted, rank, placed),
            Err(_) => Err(NoMemory),
        }
    }

    /// All reads in their order, merged with these ordered points, without those of reads.
    pub(crate) fn with_ordered(self, ordered: Vec<Placed>) -> Result<Sorted, NoMemory>
        requires { (r : ℕ) → r < 2 ^ 63 → AreRankedAbove r self.sorted.entries }
        ensures { IfOk result
            (λ sorted. MergesInto self (placings_of ordered.items) (sorted_of sorted.entries)) }
    {
        let Reads { sorted, calls } = self;
        let mut merged = sorted;
        let mut rest = ordered;
        while let Some(placed) = rest.pop() {
            if calls.contains(&call_of(&placed)) {
                continue;
            }
            put(&mut merged, rest.len(), placed)?;
        }
        Ok(merged)
    }
}

/// The points of a map, in their order.
pub(crate) fn points_of(alloc: Global, sorted: Sorted) -> Result<Vec<Point>, NoMemory>
    ensures { IfOk result
        (λ points. items_of points.items ≡ map (λ x. x.item) (sorted_of sorted.entries)) }
{
    let mut points = Vec::new(alloc);
    for (_, placed) in sorted {
        points.push(placed.point)?;
    }
    Ok(points)
}

// Puts a point in its order, before those that are equal in order. Its rank is below theirs.
fn put(sorted: &mut Sorted, rank: usize, placed: Placed) -> Result<(), NoMemory>
    requires { AreRankedAbove rank sorted.old.entries }
    ensures sorts { OnOk result (sorted_of sorted.new.entries
        ≡ insert_point (placing_of placed) (sorted_of sorted.old.entries)) }
    ensures ranked { OnOk result
        ((r : ℕ) → r < rank → AreRankedAbove r sorted.new.entries) }
{
    match sorted.insert(key_of(rank, &placed), placed) {
        Ok(_) => Ok(()),
        Err(_) => Err(NoMemory),
    }
}

fn key_of(rank: usize, placed: &Placed) -> Key
    ensures { result ≡ sorting_key rank (placing_of placed.now) }
{
    let point = &placed.point;
    let (turn, client, timestamp) = match placed.mode {
        Mode::Ordered => (0, 0, 0),
        Mode::ReadOnly => (1, Party::Client(point.client).number(), point.timestamp.0),
    };
    Key {
        position: point.position,
        number: placed.number.0,
        turn,
        client,
        timestamp,
        rank,
    }
}

fn call_of(placed: &Placed) -> CallKey
    ensures client { result.client ≡ (placing_of placed.now).item.client }
    ensures timestamp { result.timestamp ≡ (placing_of placed.now).item.timestamp }
{
    CallKey {
        client: Party::Client(placed.point.client).number(),
        timestamp: placed.point.timestamp.0,
    }
}
