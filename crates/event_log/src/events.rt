//! Events in a group.

ghost use Rattle.std.specs.Prelude.{◌≡◌, ◌<◌, ◌^◌, ◌++◌, length, OnOk, OnErr, MatchOption};
ghost use Rattle.event_log.specs.Events.{event_bytes, HasNoEvent, IsFirstEvent, HasRoom, FillsRoom};
ghost use Rattle.event_log.specs.Groups.{AreEvents, AreNoEvents};

use std::alloc::AllocError;

/// The event at the front of the bytes, and what is behind it. `None` if no event stands there.
pub fn next_event(bytes: &[u8]) -> Option<(&[u8], &[u8])>
    ensures { MatchOption result (HasNoEvent bytes.now) (λ r. IsFirstEvent bytes.now r.0.now r.1.now) }
{
    let [a, b, c, d, behind @ ..] = bytes else {
        return None;
    };
    let len = u32::from_be_bytes([*a, *b, *c, *d]) as usize;
    if behind.len() < len {
        return None;
    }
    Some(behind.split_at(len))
}

/// Appends an event, or nothing if memory runs out.
pub(crate) fn put_event(event: &[u8], out: &mut Vec<u8>) -> Result<(), AllocError>
    requires { length event.now < 2 ^ 32 }
    ensures ok { OnOk result (out.new.items ≡ out.old.items ++ event_bytes event.now) }
    ensures err { OnErr result (out.new.items ≡ out.old.items) }
{
    out.reserve(4 + event.len())?;
    put(&(event.len() as u32).to_be_bytes(), out);
    put(event, out);
    Ok(())
}

// Appends bytes where there is room for them.
fn put(bytes: &[u8], out: &mut Vec<u8>)
    requires { HasRoom out.old (length bytes.now) }
    ensures { FillsRoom bytes.now out.old out.new }
{
    match out.extend_from_slice(bytes) {
        Ok(()) => {}
        Err(_) => unreachable!(),
    }
}

/// How many events these bytes are. `None` if they are no events.
pub(crate) fn count_events(bytes: &[u8]) -> Option<u64>
    ensures { MatchOption result (AreNoEvents bytes.now) (λ count. AreEvents bytes.now count) }
{
    let mut count = 0;
    let mut rest = bytes;
    while let Some((_, behind)) = next_event(rest) {
        count += 1;
        rest = behind;
    }
    if rest.is_empty() { Some(count) } else { None }
}
