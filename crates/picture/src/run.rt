//! What is drawn.

ghost use Rattle.std.specs.Prelude.{◌≡◌, suc, ◌-◌, ◌&&◌, nat_le, nat_lt, min, IfOk};
ghost use Rattle.picture.specs.Faults.{DrawsEntries, entries_between};

use crate::fault::PictureFault;
use crate::lanes::MAX_ROWS;
use events::{Config, Entry};
use points::Point;

/// A run: its configuration, its entries, oldest first, and the points of its operations.
#[derive(Clone, Copy)]
pub struct Run<'a> {
    pub config: &'a Config,
    pub trace: &'a [Entry],
    pub points: &'a [Point],
}

/// The positions of the entries that are drawn.
#[derive(Clone, Copy, Drop)]
pub(crate) struct Rows {
    pub(crate) first: u64,
    pub(crate) end: u64,
}

impl Rows {
    /// The positions from the one to the other that a trace of so many entries has.
    pub(crate) fn of(entries: u64, from: u64, to: u64) -> Result<Rows, PictureFault>
        ensures first { IfOk result (λ rows. rows.first ≡ from) }
        ensures end { IfOk result (λ rows. rows.end ≡ min entries (suc to)) }
        ensures drawn { DrawsEntries entries (entries_between entries from to) result }
    {
        let end = entries.min(to.saturating_add(1));
        let rows = Rows { first: from, end };
        if rows.count() == 0 && entries > 0 {
            return Err(PictureFault::NoEntry { entries });
        }
        if rows.count() > MAX_ROWS {
            return Err(PictureFault::TooHigh {
                entries: rows.count(),
                most: MAX_ROWS,
            });
        }
        Ok(rows)
    }

    pub(crate) fn count(&self) -> u64
        ensures { result ≡ self.now.end - self.now.first }
    {
        self.end.saturating_sub(self.first)
    }

    pub(crate) fn has(&self, position: u64) -> bool
        ensures { result ≡ (nat_le self.now.first position && nat_lt position self.now.end) }
    {
        self.first <= position && position < self.end
    }
}
