//! The command `keys`: from a configuration the files of all its parties, each with what that party may know.
//!
//! # What is proved
//!
//! [`write_keys`] holds over any folder that says its files. At `Ok` it put the file of each party and no other: each
//! has the name of its party and the text of its keys (`file_of`), and no file of such a name was there before. If one
//! was there, nothing was put (`DealsFiles`). [`read_given`] gives the configuration that a text says, and a text that
//! it refuses says none. A text without a seed says one with the line of a seed behind it ([`with_seed`]).
//! [`draw_seed`] gives the first 32 bytes of its reader.
//!
//! What a folder of the system does with the files is tested: it makes them new, for their owner alone.
#![tactic(auto)]

mod commands;
mod configuring;
mod fault;
mod folder;
mod writing;

pub use commands::deal_keys;
pub use configuring::{Given, draw_seed, read_given, read_text, with_seed};
pub use fault::{KeysFault, end_keys};
pub use folder::{FileFolder, Folder};
pub use writing::{file_name, write_keys};
