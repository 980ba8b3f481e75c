//! What records tell a process.

ghost use Rattle.std.specs.Prelude.{◌≤◌, length, IfSome, IfNone};
ghost use Rattle.records.specs.Records.{TellsNothing};
ghost use Rattle.records.specs.NoticeView.{Tells};

use wire_format::MAX_FRAME;

/// The kind of a record with a frame.
pub const FRAME: u8 = 1;

/// The kind of a record about a timer.
pub const TIMER: u8 = 2;

/// The kind of a record that tells how many other replicas are linked.
pub const LINKS: u8 = 3;

/// The most bytes of a record that a process reads, without its length: a kind and the longest frame.
pub const MAX_RECORD: usize = 1 + MAX_FRAME;

/// What a record tells a process.
#[derive(Clone, Copy, Debug, PartialEq, Eq)]
pub enum Notice<'a> {
    /// This frame came.
    Came(&'a [u8]),
    /// The timer of this number is over.
    TimerOver(u64),
    /// So many other replicas are linked.
    Linked(u8),
}

/// What a record of this kind and content tells. `None` if the kind is unknown, or has no such content.
pub(crate) fn notice_in(body: &[u8]) -> Option<Notice<'_>>
    requires { length body.now ≤ MAX_RECORD }
    ensures tells { IfSome result (Tells body.now) }
    ensures nothing { IfNone result (TellsNothing body.now) }
{
    match body {
        [FRAME, frame @ ..] => Some(Notice::Came(frame)),
        [TIMER, a, b, c, d, e, f, g, h] => {
            let number = u64::from_be_bytes([*a, *b, *c, *d, *e, *f, *g, *h]);
            Some(Notice::TimerOver(number))
        }
        [LINKS, count] => Some(Notice::Linked(*count)),
        _ => None,
    }
}
