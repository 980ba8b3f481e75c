//! What the parties of the replicated space share: the configuration, the entries of traces, and the outputs of a step.
//!
//! # What is proved
//!
//! [`Config::new`] makes exactly the valid configurations, and its methods answer as the definitions of a
//! configuration. A [`JournalLimit`] is a number of 1 to 65,536. An [`Entry`] is the protocol's entry, and an
//! [`Output`] of a party is the entry that it adds to the party's history. An entry does not tell to whom a frame goes;
//! `AreSentAsMeant` says that each frame goes exactly to the parties for whom it is: those with a MAC in it, or all
//! replicas but the sender of a signed one.
//!
//! # How it is made
//!
//! - Each call that gives outputs promises `AreSentAsMeant` of them. A frame's bytes say for whom it is: `meant_for` of
//!   the protocol.
//! - A frame's bytes are [`SharedBytes`]: outputs, entries and inboxes share them, and copy none. An entry has its
//!   operation, answer or root behind an `Arc` likewise. So it is small, and [`Entry::share`] takes no memory.
//! - `entry_of` is the entry for which an output stands (`specs/Outputs.antt`).
#![tactic(auto)]

mod config;
mod entry;
mod journal_limit;
mod output;
mod shared_bytes;

pub use config::{BadConfig, Config};
pub use entry::{Entry, EntryKind};
pub use journal_limit::{JournalLimit, MAX_JOURNAL};
pub use output::{Output, Outputs, Stop, emit};
pub use shared_bytes::SharedBytes;
