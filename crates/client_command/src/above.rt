//! The timestamp above which a life begins.

ghost use Rattle.std.specs.Prelude.{◌≡◌, ◌*◌, ◌^◌, ◌-◌, ◌<◌, ◌≤◌, IfSome, IsSome, IfOk, IsOk};
ghost use Rattle.client_command.specs.Moments.{milliseconds_of};

use crate::fault::ClientFault;
use std::time::{Clock, Duration};
use terms::Timestamp;

// With more calls in a millisecond a life could come to timestamps of one that begins later.
const CALLS: u64 = 1 << 20;

// From so many milliseconds on the product is no number of 64 bits. The last timestamp comes long before.
const TOO_LATE: u128 = 1 << 44;

/// The timestamp that the words give, or else that of the clock.
///
/// # Errors
///
/// [`ClientFault::Clock`] if the clock is asked and can't be read.
pub(crate) fn above_of<R: Clock>(rt: &R, asked: Option<u64>) -> Result<Timestamp, ClientFault>
    ensures taken { IsSome asked → IsOk result }
    ensures asked { IfSome asked (λ number. IfOk result (λ above. above.0 ≡ number)) }
{
    if let Some(number) = asked {
        return Ok(Timestamp(number));
    }
    match rt.since_1970() {
        Ok(time) => Ok(above_at(time)),
        Err(error) => Err(ClientFault::Clock(error)),
    }
}

/// The timestamp above which a life begins at this time since 1970: 2^20 for each millisecond, as long as there are so
/// many. It is above all timestamps of earlier lives if none of them made more than 2^20 calls for each millisecond
/// that it lasted, and the clock didn't go back.
pub fn above_at(since_1970: Duration) -> Timestamp
    ensures early { milliseconds_of since_1970 < 2 ^ 44 → result.0 ≡ milliseconds_of since_1970 * 2 ^ 20 }
    ensures late { 2 ^ 44 ≤ milliseconds_of since_1970 → result.0 ≡ 2 ^ 64 - 1 }
{
    let milliseconds = since_1970.as_millis();
    if milliseconds < TOO_LATE {
        Timestamp(milliseconds as u64 * CALLS)
    } else {
        Timestamp(u64::MAX)
    }
}
