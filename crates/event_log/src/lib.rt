//! A log of events in one file: what was synced is read again after any crash, as the beginning of what is read.
//!
//! It is a write-ahead log (Mohan and others, *ARIES*, TODS 1992) over any [`Disk`](sqlite_disk::Disk). A disk shows
//! what was written. A crash leaves what was synced, and of what was not any part, torn or garbled. A log gathers
//! events, and writes them as one group, which it syncs before it writes the next one. `docs/formats.md` has the bytes.
//!
//! # What is proved
//!
//! - **What was synced is read.** Whether a call succeeded, failed or never returned: whatever a crash leaves keeps all
//!   events that were synced (`Log::sync`, `Log::rest`). What a file is read as begins with all events that it keeps
//!   (`kept_events_are_read`). Reading may crash too.
//! - **A torn tail is cut, and damage never.** [`Reading::end`] cuts what is behind the groups that were read only if
//!   no sound group begins at any place there. Else it refuses the file by the places, and leaves it as it is. No file
//!   is both damaged and read (`damage_is_not_read`).
//! - **A log that rests has no event in its last group** ([`Log::rest`]).
//! - **A log has one owner.** [`Reading::open`] refuses a file that doesn't begin with the header of the owner's keys.
//!
//! No strength of a check is supposed. If what a crash left behind the synced groups looks like a group, it is read as
//! one more, so a caller must be right whatever comes after the events that it put. That damage is noticed at all is as
//! sure as its check, SipHash-1-3 of 64 bits.
//!
//! # What can't be told
//!
//! Damage to the last group alone looks like a torn tail, and is cut. [`Log::rest`] writes an empty group behind it, so
//! that it no longer is the last. A file that was cut by others, or an old copy of it, is read as its front.
//!
//! # What it keeps
//!
//! A log keeps the events that it gathers, and twice so much while it writes them; a reading keeps one group. An event
//! is refused if the file has no room for it and for an empty group. Each start may write one empty group beyond that.
#![tactic(auto)]

mod disks;
mod events;
mod fault;
mod finding;
mod groups;
mod header;
mod laws;
mod log;
mod owner;
mod reading;

pub use events::next_event;
pub use fault::LogFault;
pub use groups::MAX_GROUP;
pub use header::HEADER_LEN;
pub use laws::{damage_is_not_read, kept_events_are_read};
pub use log::Log;
pub use owner::Owner;
pub use reading::Reading;
