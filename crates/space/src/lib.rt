//! One process's tuple space: a bag of tuples in order of age (Gelernter, Generative communication in Linda, TOPLAS
//! 1985) under the operations of DepSpace (Bessani and others, EuroSys 2008, section 3).
//!
//! A space has a [`Version`]. One of version 1 holds at most [`MAX_TUPLES`] tuples, 8,192, and refuses each operation
//! of version 2. One of version 2 holds at most [`MAX_TUPLES_V2`], 12,288. Client 0 alone may `upgrade` a space from
//! version 1 to version 2. Of several matches the space chooses the oldest.
//!
//! Each stored tuple has a birth number, which puts it on one of [`PAGES`] pages of at most [`MAX_ON_PAGE`] tuples.
//! Births and pages are this project's own.
//!
//! # What is proved
//!
//! - `apply` answers and leaves what the definition says of the client, the version and the list of tuples in order of
//!   age (`outcome`, `tuples_after`). It does so for `out`, `rdp`, `inp`, `cas`, `rdAll`, `inAll` and `upgrade`. If
//!   memory runs out, the space is unchanged.
//! - A space of version 1 answers `Refused` to `inAll` and to an operation that has or asks for a wide number, and is
//!   unchanged. [`Space::new`] gives version 1, [`Space::new_v2`] version 2, and only `upgrade` changes the version.
//! - `peek` answers reads, the same to each client, and refuses exactly the other operations. `look` shows the same
//!   answers where they lie, and leaves what `apply` would leave.
//! - `apply`, `peek` and `look` run out of memory only if the operation adds a tuple or finds a match (`WantsMemory`).
//! - `page_text` and `header_text` give the pages of the definition, in the form of the version. `from_pages` gives a
//!   space exactly if the texts are a state's, unless memory runs out. It runs out only for 256 texts and a state's
//!   header.
//! - `candidates` lends exactly the births of the tuples of a template's length and first value. The operations walk no
//!   others.
//! - [`Watched`] knows which pages its operations touched. A page that is not touched has the text that it had when
//!   `untouch` was last called. An operation touches only the pages of the tuples that it may add or take, and an
//!   `upgrade` touches all (`MayChange`).
//! - Laws: `births_are_least`, `states_stay_states`, `tuples_follow_states`, `answers_are_valid`,
//!   `reads_know_no_client`, `pages_determine` (equal pages are equal states of one version), `batches_leave_states`.
#![tactic(auto)]

mod birth_list;
mod birth_table;
mod births;
mod index;
mod key_births;
mod keys;
mod laws;
mod lists;
mod matching;
mod pages;
mod place_table;
mod prints;
mod reading;
mod seen;
mod stored;
mod tuples;
mod version;
mod watched;

pub use births::{MAX_ON_PAGE, PAGES};
pub use laws::{
    answers_are_valid, batches_leave_states, births_are_least, pages_determine,
    reads_know_no_client, states_stay_states, tuples_follow_states,
};
pub use pages::HEADER_LEN;
pub use seen::Seen;
pub use tuples::{PeekFault, Space};
pub use version::{MAX_TUPLES, MAX_TUPLES_V2, Version};
pub use watched::Watched;
