//! One space for programs in C, and in whatever language calls C: a static library, whose header is
//! `clients/c/btspace.h`.
//!
//! # What is proved
//!
//! [`btspace_run`] is a function of its arguments: it keeps no state, and takes no pointer but to bytes that it reads
//! or writes. It reads operations one behind another, applies them to a new space as client 0's, and writes their
//! answers. What it read and wrote is a run (`RunsBytes`), whatever it gives. It gives 0 only if it read all, 5 only if
//! no front of the rest spells an operation, 7 only if the next answer doesn't fit, and 25 exactly if there is no such
//! version. Behind the answers the results stay as they were.
//!
//! The others are about a space that lasts. A [`Handle`] holds the state of a space, or nothing. That is what their
//! contracts speak of: which bytes are written, what the handle holds then, and that a refusal changes neither.
//!
//! - [`btspace_open`] makes it hold a new space, and [`btspace_close`] nothing.
//! - [`btspace_apply`] gives 0 only if the bytes, whole, spell an operation. Then it holds the state that the operation
//!   leaves, and the answer's spelling was written (`AppliesHeld`).
//! - [`btspace_page`] and [`btspace_header`] write the texts of pages and header that the definition has of this state.
//! - [`btspace_from_pages`] makes it hold the state whose texts these are; 5 says that they are no state's.
//!
//! Five functions make a box of the handle's pointer, and back. Their proofs are written by hand (`proofs/handle`,
//! `proofs/parcel`), step by step: the borrow checker follows no raw pointer.
//!
//! # What is trusted
//!
//! That what C passes is there: as many bytes as it says, to be read and to be written, and no two of them the same;
//! and that a handle is a null pointer, or as a call of this library left it.
#![tactic(auto)]

mod applying;
mod exports;
mod handle;
mod lasting;
mod paging;
mod parcel;
mod running;
mod writing;

pub use exports::{Ran, btspace_run};
pub use handle::Handle;
pub use lasting::{
    btspace_apply, btspace_close, btspace_from_pages, btspace_header, btspace_open, btspace_page,
};
