//! The entries of a trace as text for people.
//!
//! # What is proved
//!
//! `write_entry` appends the line of the entry, or leaves the bytes as they were; `specs/Lines.antt` gives the line
//! of each kind. For bytes that came or were sent, the line shows the content of the frame that they spell. If they
//! spell none, it shows how many there are (`specs/Frames.antt`).
#![tactic(auto)]

mod entries;
mod frames;
mod lists;
mod names;
mod putting;

pub use entries::write_entry;
pub use names::Name;
