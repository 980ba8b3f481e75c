//! The positions of a run's operations in its trace (Herlihy and Wing, Linearizability, TOPLAS 1990, section 2).
//!
//! # What is proved
//!
//! [`points`] returns the protocol's points of a trace. One scan finds the positions at which the level of correct
//! replicas rises, one the first batch of each number, and one the reads that acceptances end. The batches run in the
//! order of their numbers, and numbers without one cost nothing. So the time is near linear in the trace, however large
//! its numbers are.
//!
//! # How it is made
//!
//! The definition asks of each number up to the greatest one where its level comes and what its batch does. The code
//! asks nothing for a number that has no batch.
//!
//! 1. One scan keeps the number that each replica reached. It notes where the level of all but `f` of the correct ones
//!    rises (`src/levels.rt`). A binary search finds the first position of a number among these rises
//!    (`src/places.rt`).
//! 2. A second scan notes of each client (`src/scans.rt`): its open call, the position of its invocation, and
//!    the bytes that came last. So an acceptance opens one frame (`src/reads.rt`).
//! 3. A third scan notes the first batch of each number (`src/batches.rt`). These batches run one after another on a
//!    space and last replies without pages (`src/running.rt`).
//! 4. The points lie in one map, by their order. A rank keeps points in their order that are else alike
//!    (`src/sorting.rt`). The calls of reads lie in a set, so that requests of the same calls are left out.
#![tactic(auto)]

ghost use Rattle.std.specs.Prelude.{◌≡◌, reverse, IfOk};
ghost use Rattle.protocol.specs.Space.Linear.{points};
ghost use Rattle.points.specs.PointView.{items_of};

mod batches;
mod levels;
mod places;
mod point;
mod reads;
mod running;
mod scans;
mod sorting;

use batches::find_batches;
use events::{Config, Entry};
use places::Places;
pub use point::Point;
use reads::find_reads;
use running::run_batches;
use sorting::points_of;
use std::alloc::Global;
use terms::NoMemory;

/// The points of a trace, whose oldest entry stands first, in their order.
///
/// A request that ran stands at the first position at which all but f of the correct replicas have executed or
/// installed its number or a later one. It is left out if there is none. A read that was accepted by read-only replies
/// stands at the position of their number or at its invocation, whichever is later. A request of the same call that ran
/// is left out.
///
/// NoMemory if memory runs out, or births, of which there are 2 to the power of 62.
pub fn points(alloc: Global, config: &Config, trace: &[Entry]) -> Result<Vec<Point>, NoMemory>
    ensures { IfOk result
        (λ found. items_of found.items ≡ points config.now (reverse trace.now)) }
{
    let places = Places::of(alloc, config, trace)?;
    let reads = find_reads(alloc, config, &places, trace)?;
    let batches = find_batches(alloc, trace)?;
    let ordered = run_batches(alloc, config.clients(), &places, batches)?;
    let sorted = reads.with_ordered(ordered)?;
    points_of(alloc, sorted)
}
