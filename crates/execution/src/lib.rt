//! A replica's executed state: the space, the last reply to each client and the number of the last batch, with the tree
//! over their pages (Castro and Liskov, Practical Byzantine fault tolerance and proactive recovery, TOCS 2002, on
//! normal-case operation, and on checkpoint management for the pages).
//!
//! # What is proved
//!
//! `execute` is the protocol's definition, in every configuration with so many clients: it leaves the state after the
//! batch, and returns the replies to the requests that ran, in order. A request whose timestamp isn't above its
//! client's last doesn't run again. `space` lends the executed space.
//!
//! `pages`, `checkpoint` and `root` are the pages of the state and their root, though only pages that a request may
//! have changed since the last call are written and hashed again. `install` replaces the state exactly if some state of
//! the number has the given pages and lowers no client's last timestamp, unless memory runs out; else it changes
//! nothing.
//!
//! An [`Executed`] always is a state (`IsState`). Laws: `pages_determine` (equal pages are equal states),
//! `pages_are_short` (at most 66,176 bytes).
//!
//! # How it is made
//!
//! - Requests touch pages (`Watched` of `space`, `WatchedReplies`), and `Executed::pages` writes and hashes those. A
//!   page of tuples that only got longer is written and hashed on from its text in the tree.
//! - An `upgrade` of client 0 touches all 256 pages of tuples, whichever version the space has. So the next checkpoint
//!   writes and hashes each page once, however many upgrades came before it. Other batches of a period of 16 can touch
//!   as many.
//! - `install` keeps the tree that it reads as its own (`read_pages` in `src/installing.rt`). `HasPagesAt` and
//!   `NoneFalls` are its conditions.
//! - An installed state lowers no client's last timestamp, so no request that ran is new again. So a primary that
//!   installs a state gives no request a second number.
#![tactic(auto)]

mod calls;
mod executed;
mod installing;
mod laws;
mod pages;
mod replies;
mod running;

pub use calls::{Call, read_call};
pub use executed::Executed;
pub use laws::{pages_are_short, pages_determine};
pub use running::Ran;
