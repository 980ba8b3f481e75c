//! Refusals.

use std::alloc::AllocError;
use terms::NoMemory;
use thiserror::Error;

/// Why a journal took no entries.
#[derive(Clone, Copy, Debug, PartialEq, Eq, Error)]
pub enum AppendFault {
    /// The journal's history of the party differs from its share, its two shares differ, or the received bytes were
    /// not sent there.
    #[error("not in the journal")]
    NotInJournal,
    /// The journal has no room for the entries.
    #[error("the journal is full")]
    JournalFull,
    #[error("out of memory")]
    NoMemory,
}

impl From<AllocError> for AppendFault {
    ghost use Rattle.std.specs.Prelude.{◌≡◌};
    ghost use Rattle.journal.specs.declared.fault.AppendFault.TheVariants.{NoMemory as no_memory};

    ghost from_gives = { λ _ fault. fault ≡ no_memory };

    fn from(_failed: AllocError) -> AppendFault {
        AppendFault::NoMemory
    }
}

impl From<NoMemory> for AppendFault {
    ghost use Rattle.std.specs.Prelude.{◌≡◌};
    ghost use Rattle.journal.specs.declared.fault.AppendFault.TheVariants.{NoMemory as no_memory};

    ghost from_gives = { λ _ fault. fault ≡ no_memory };

    fn from(_failed: NoMemory) -> AppendFault {
        AppendFault::NoMemory
    }
}
