//! Groups of events, as bytes.

ghost use Rattle.std.specs.Prelude.{◌≡◌, ◌≤◌, ◌+◌, length, IfOk, MatchOption};
ghost use Rattle.event_log.specs.Groups.{framed_bytes, IsGroupOf, IsNoGroup, IsBodyOf, IsNoBody, IsTextOf, IsNoText};
ghost use Rattle.event_log.specs.Groups.{SaysText, SaysNone};

use crate::events::count_events;
use crate::owner::Owner;
use sqlite_disk::digest_of;
use std::alloc::{AllocError, Global};

/// Most bytes that the events of a group may have.
pub const MAX_GROUP: usize = 1_073_741_824;

/// Bytes of a group before its events: mark, number and length.
pub(crate) const GROUP_HEAD: usize = 20;

/// Bytes of a group without events.
pub(crate) const EMPTY_GROUP: usize = 28;

/// A group of these events, the first of which has this number.
pub(crate) fn group(
    alloc: Global,
    owner: Owner,
    number: u64,
    events: &[u8],
) -> Result<Vec<u8>, AllocError>
    requires { length events.now ≤ MAX_GROUP }
    ensures { IfOk result (λ group. group.items ≡ framed_bytes owner number events.now) }
{
    let mut group = Vec::with_capacity(alloc, EMPTY_GROUP + events.len())?;
    group.extend_from_slice(&owner.mark.to_be_bytes())?;
    group.extend_from_slice(&number.to_be_bytes())?;
    group.extend_from_slice(&(events.len() as u32).to_be_bytes())?;
    group.extend_from_slice(events)?;
    let check = digest_of(owner.key, &group[8..]);
    group.extend_from_slice(&check.to_be_bytes())?;
    Ok(group)
}

/// How many bytes of events the head of a group says. `None` if it is the head of none.
pub(crate) fn text_len(owner: Owner, head: &[u8]) -> Option<usize>
    ensures { MatchOption result (SaysNone owner head.now) (λ count. SaysText owner head.now count) }
{
    if head.len() != GROUP_HEAD {
        return None;
    }
    let (mark, behind) = head.split_at(8);
    let (_, len) = behind.split_at(8);
    let [a, b, c, d] = len else {
        return None;
    };
    let len = u32::from_be_bytes([*a, *b, *c, *d]) as usize;
    if mark != owner.mark.to_be_bytes().as_slice() || len > MAX_GROUP {
        return None;
    }
    Some(len)
}

/// The number of the first event of the group that these bytes are, and how many events it has. `None` if they are
/// none.
pub(crate) fn whole_group(owner: Owner, bytes: &[u8]) -> Option<(u64, u64)>
    ensures { MatchOption result (IsNoGroup owner bytes.now) (λ r. IsGroupOf owner bytes.now r.0 r.1) }
{
    if bytes.len() < EMPTY_GROUP {
        return None;
    }
    let (mark, behind) = bytes.split_at(8);
    let (body, check) = behind.split_at(behind.len() - 8);
    if mark != owner.mark.to_be_bytes().as_slice()
        || check != digest_of(owner.key, body).to_be_bytes().as_slice()
    {
        return None;
    }
    whole_body(body)
}

// The same of a group's body.
fn whole_body(bytes: &[u8]) -> Option<(u64, u64)>
    ensures { MatchOption result (IsNoBody bytes.now) (λ r. IsBodyOf bytes.now r.0 r.1) }
{
    let [a, b, c, d, e, f, g, h, behind @ ..] = bytes else {
        return None;
    };
    let number = u64::from_be_bytes([*a, *b, *c, *d, *e, *f, *g, *h]);
    let count = count_text(behind)?;
    number.checked_add(count)?;
    Some((number, count))
}

// How many events there are, of which the length of their bytes says that they are all.
fn count_text(bytes: &[u8]) -> Option<u64>
    ensures { MatchOption result (IsNoText bytes.now) (λ count. IsTextOf bytes.now count) }
{
    let [a, b, c, d, text @ ..] = bytes else {
        return None;
    };
    if text.len() > MAX_GROUP || text.len() != u32::from_be_bytes([*a, *b, *c, *d]) as usize {
        return None;
    }
    count_events(text)
}
