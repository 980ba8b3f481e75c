//! The file of one party's keys, in TOML: what that party may know, and nothing else.
//!
//! | key | value |
//! |---|---|
//! | `party` | its number: replica `r` is `r`, client `c` is `256 + c` |
//! | `f`, `clients`, `checkpoint` | how many replicas may be faulty, how many clients there are, and how many batches lie between checkpoints |
//! | `from`, `to` | its keys from and to each party that it exchanges frames with, replicas before clients |
//! | `public` | the public keys of all replicas |
//! | `signing_seed` | a replica's own signing seed; a client has none |
//!
//! # What is proved
//!
//! `read_file` is safe and returns, on any bytes. Its result is the party's keys that the text says (`SaysFile`): each
//! value stands under its key in the text's table, no other key stands there, and all are valid. A refused text says no
//! party's keys (`JudgesFile`). `PartyKeys::write` appends exactly the file's text, which is read as the same keys and
//! as no others (`files_are_read`).
#![tactic(auto)]

mod dealing;
mod fault;
mod key;
mod laws;
mod lists;
mod party_keys;
mod place;
mod reading;
mod writing;

pub use fault::{FileFault, ShownKey};
pub use key::Key;
pub use laws::files_are_read;
pub use party_keys::PartyKeys;
pub use reading::{MAX_FILE, read_file};
