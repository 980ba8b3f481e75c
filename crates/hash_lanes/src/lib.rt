//! SHA-256 (FIPS 180-4) of four texts at once.
//!
//! Most hashes of this product come in groups that don't depend on each other: a MAC for each receiver of a frame, the
//! secrets and the public hashes of a leaf of one-time keys, those of a signature. Four of them take less than half the
//! time side by side in the lanes of vectors. Elsewhere `sha2` serves.
//!
//! # What is proved
//!
//! A [`Midstate`] is a hash that has taken in whole blocks. `finish` gives the digest of these and a text behind them.
//! [`finish_four`] gives it for one text behind four hashes, [`finish_each`] for four texts, each behind its own hash.
//! [`take_each`] takes one more block into each of four hashes. All are told by the definition of `sha256` of the crate
//! `sha2`, in each lane.
//!
//! # How it is made
//!
//! - `src/words.rt` compresses one block into one hash value, `src/lanes.rt` four side by side. Both run the rounds
//!   over the whole message schedule. If all lanes take the same block, its schedule is made once.
//! - `src/tail.rt` pads. `src/midstate.rt` and `src/four.rt` put these together.
//! - The vectors have four words, as each x86-64 processor has. No instruction for SHA-256 is used.
#![tactic(auto)]

mod four;
mod lanes;
mod midstate;
mod tail;
mod words;

pub use four::{finish_each, finish_four, take_each};
pub use midstate::Midstate;
