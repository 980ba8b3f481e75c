//! Matches among stored tuples.

ghost use Rattle.std.specs.Prelude.{◌≡◌, ◌≢◌, [], OnErr};
ghost use Rattle.space.specs.Births.{oldest_births};
ghost use Rattle.space.specs.Prints.{TellsMatches};
ghost use Rattle.space.specs.Found.{IsMatchAt, IsOldest, IsOldestAt, AreOldestAt, AreOldestSeen, matches_at};
ghost use Rattle.space.specs.Found.{entries_at, entry_of_birth};

use crate::prints::{Wanted, wanted_by};
use crate::stored::Stored;
use arrayvec::ArrayVec;
use std::alloc::{Allocator, Global};
use template_match::matches;
use terms::NoMemory;
use tuple_codec::{MAX_ANSWERS, Max, Tuples};
use tuple_tree::{Template, Tuple};

// The tuple of this birth, if it matches. It is looked for at `near` first, which then is the place behind it. Most
// others are passed by their labels.
#[inline(always)]
fn match_at<'a, A: Allocator>(
    tuples: &'a Stored,
    birth: u64,
    near: &mut usize,
    template: &Template<A>,
    wanted: &Wanted,
) -> Option<&'a Tuple<Global>>
    requires { TellsMatches template.now wanted.now }
    ensures { IsMatchAt template.now tuples.now.entries birth result }
{
    if tuples.passes(birth, near, wanted) {
        return None;
    }
    // The place is lent as a copy, so that the walk keeps its own in a register.
    let mut place = *near;
    let found = match_found(tuples, birth, &mut place, template, wanted);
    *near = place;
    found
}

// The same, also if the tuple lies elsewhere or its label tells nothing.
#[inline(never)]
fn match_found<'a, A: Allocator>(
    tuples: &'a Stored,
    birth: u64,
    near: &mut usize,
    template: &Template<A>,
    wanted: &Wanted,
) -> Option<&'a Tuple<Global>>
    requires { TellsMatches template.now wanted.now }
    ensures { IsMatchAt template.now tuples.now.entries birth result }
{
    tuples.turn_to(birth, near);
    if tuples.passes(birth, near, wanted) {
        return None;
    }
    match tuples.get_near(birth, near) {
        Some(tuple) => {
            if matches(template, tuple) {
                Some(tuple)
            } else {
                None
            }
        }
        None => None,
    }
}

// The tuple of this birth with it, if it matches. No label is asked, since a look at one tuple costs less.
fn lone_match<'a, A: Allocator>(
    tuples: &'a Stored,
    birth: u64,
    template: &Template<A>,
) -> Option<(u64, &'a Tuple<Global>)>
    ensures { IsOldest template.now (entry_of_birth tuples.now.entries birth) result }
{
    match tuples.get(birth) {
        Some(tuple) => {
            if matches(template, tuple) {
                Some((birth, tuple))
            } else {
                None
            }
        }
        None => None,
    }
}

/// The oldest match among the tuples of these births.
pub fn oldest_match<'a, A: Allocator>(
    tuples: &'a Stored,
    births: &[u64],
    template: &Template<A>,
) -> Option<(u64, &'a Tuple<Global>)>
    ensures { IsOldestAt template.now tuples.now.entries births.now result }
{
    // Most first values have one tuple.
    if births.len() == 1 {
        return lone_match(tuples, births[0], template);
    }
    let wanted = wanted_by(template);
    let mut near = 0;
    for birth in births {
        if let Some(tuple) = match_at(tuples, *birth, &mut near, template, &wanted) {
            return Some((*birth, tuple));
        }
    }
    None
}

/// Copies of the oldest matches among the tuples of these births, at most `max`.
pub fn copies_of_matches<A: Allocator>(
    alloc: Global,
    tuples: &Stored,
    births: &[u64],
    template: &Template<A>,
    max: Max,
) -> Result<Tuples<Global>, NoMemory>
    ensures value { AreOldestAt max.count template.now tuples.now.entries births.now result }
    ensures memory { OnErr result (matches_at template.now tuples.now.entries births.now ≢ []) }
{
    let mut copies = Tuples::new_in(alloc);
    let wanted = wanted_by(template);
    let mut near = 0;
    for birth in births {
        if copies.len() >= max.count as usize {
            return Ok(copies);
        }
        if let Some(tuple) = match_at(tuples, *birth, &mut near, template, &wanted) {
            let copy = tuple.copy_in(alloc)?;
            copies.push(copy)?;
        }
    }
    Ok(copies)
}

/// The oldest matches among the tuples of these births, at most `max`, where they lie.
pub fn seen_matches<'a, A: Allocator>(
    alloc: Global,
    tuples: &'a Stored,
    births: &[u64],
    template: &Template<A>,
    max: Max,
) -> Result<Vec<&'a Tuple<Global>>, NoMemory>
    ensures value { AreOldestSeen max.count template.now tuples.now.entries births.now result }
    ensures memory { OnErr result (matches_at template.now tuples.now.entries births.now ≢ []) }
{
    let mut seen = Vec::new(alloc);
    let wanted = wanted_by(template);
    let mut near = 0;
    for birth in births {
        if seen.len() >= max.count as usize {
            return Ok(seen);
        }
        if let Some(tuple) = match_at(tuples, *birth, &mut near, template, &wanted) {
            // The first one takes the room of all.
            seen.reserve(max.count as usize - seen.len())?;
            seen.push_reserved(tuple);
        }
    }
    Ok(seen)
}

/// The births of the oldest matches among the tuples of these births, at most `max`. Takes no memory.
pub fn births_of_matches<A: Allocator>(
    tuples: &Stored,
    births: &[u64],
    template: &Template<A>,
    max: Max,
) -> ArrayVec<u64, MAX_ANSWERS>
    ensures { result.items
        ≡ oldest_births max.count template.now (entries_at tuples.now.entries births.now) }
{
    let mut matched = ArrayVec::new();
    let wanted = wanted_by(template);
    let mut near = 0;
    for birth in births {
        if matched.len() >= max.count as usize {
            return matched;
        }
        if let Some(_tuple) = match_at(tuples, *birth, &mut near, template, &wanted) {
            matched.push(*birth);
        }
    }
    matched
}
