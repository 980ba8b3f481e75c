//! The file of a party's keys, as the party's process reads it.
//!
//! # What is proved
//!
//! [`read_keys`] gives the keys that the file's text says, and a text that it refuses is that of no party. Of a file
//! that is too long it reads one byte more than a file may have. [`KeysFault::complaint`] says how a program ends
//! without keys.
#![tactic(auto)]

mod fault;
mod reading;

pub use fault::KeysFault;
pub use reading::read_keys;
