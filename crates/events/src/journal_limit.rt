//! How long a journal may get.

ghost use Rattle.std.specs.Prelude.{◌≡◌, ◌≤◌, ◌↔◌, IfOk, IsOk};

use crate::config::BadConfig;

/// Most entries of a journal.
pub const MAX_JOURNAL: u32 = 65_536;

/// How many entries a journal takes: 1 to 65,536. It is the key `journal` of a configuration's text.
#[derive(Clone, Copy)]
pub struct JournalLimit {
    pub entries: u32,
    ghost in_range: { (1 ≤ entries) × (entries ≤ 65536) },
}

impl JournalLimit {
    /// The limit of so many entries.
    ///
    /// # Errors
    ///
    /// [`BadConfig`] exactly if they are none, or more than 65,536.
    pub fn new(entries: u32) -> Result<JournalLimit, BadConfig>
        ensures value { IfOk result (λ limit. limit.entries ≡ entries) }
        ensures only { IsOk result ↔ ((1 ≤ entries) × (entries ≤ 65536)) }
    {
        if entries == 0 || entries > MAX_JOURNAL {
            return Err(BadConfig);
        }
        Ok(JournalLimit { entries })
    }
}
