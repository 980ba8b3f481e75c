//! Events, appended to the journal under its lock. Each call gives the position of the event's first entry.

ghost use Rattle.std.specs.Prelude.{◌≡◌, OnOk, OnErr};
ghost use Rattle.events.specs.Outputs.{after_entries};
ghost use Rattle.journal.specs.Histories.{IsEventOf, IsRight};
ghost use Rattle.journal.specs.Parts.{AgreeInOrdering, longer_part};
ghost use Rattle.protocol.specs.System.Reads.{without_reads};

use events::Entry;
use journal::{AppendFault, Journal, Naming, OrderShare, Share};
use std::sync::{Mutex, Wait};

/// Appends an event of the share's party. `from` is the position at which the received frame was sent.
pub(crate) fn record<N: Naming, R: Wait>(
    rt: &R,
    journal: &Mutex<Journal<N>>,
    share: &mut Share<N>,
    from: Option<u64>,
    entries: Vec<Entry>,
) -> Result<u64, AppendFault>
    requires event { IsEventOf share.old.party entries.items }
    requires right { IsRight N.config share.old.party (after_entries entries.items share.old.history) }
    ensures kept { OnOk result (share.new ≡ longer_part share.old entries.items) }
    ensures refused { OnErr result (share.new ≡ share.old) }
{
    let mut book = journal.lock(rt);
    let first = book.len();
    book.append(share, from, entries)?;
    Ok(first)
}

/// The same for an ordering thread, which has a share of ordering too.
pub(crate) fn record_order<N: Naming, R: Wait>(
    rt: &R,
    journal: &Mutex<Journal<N>>,
    share: &mut Share<N>,
    order: &mut OrderShare<N>,
    from: Option<u64>,
    entries: Vec<Entry>,
) -> Result<u64, AppendFault>
    requires event { IsEventOf share.old.party entries.items }
    requires right { AgreeInOrdering share.old order.old
        → IsRight N.config share.old.party (after_entries entries.items share.old.history) }
    ensures alike { OnOk result (AgreeInOrdering share.old order.old) }
    ensures kept { OnOk result (share.new ≡ longer_part share.old entries.items) }
    ensures ordered { OnOk result (order.new ≡ longer_part order.old (without_reads entries.items)) }
    ensures refused { OnErr result (share.new ≡ share.old) }
    ensures unordered { OnErr result (order.new ≡ order.old) }
{
    let mut book = journal.lock(rt);
    let first = book.len();
    book.append_order(share, order, from, entries)?;
    Ok(first)
}
