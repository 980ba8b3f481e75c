//! The sets P and Q of a replica, and the view change that it makes of them (Castro and Liskov, Practical Byzantine
//! fault tolerance and proactive recovery, TOCS 2002, on view changes). Nothing here signs or sends.
//!
//! # What is proved
//!
//! - `PqSets` has for each number the batch that was prepared in the latest view, and for each number and digest the
//!   latest view in which it was logged, in the order of a view change, with the texts of the batches.
//! - `make` makes a view change of them, which may be sent; None only if a set has more entries than a frame counts.
//! - The law: the sets noted of a history are those of its view change.
//!
//! If memory runs out, a call that takes memory returns an error and leaves all as it was.
//!
//! # How it is made
//!
//! By laws over any relation of views, numbers and digests, the notes of `PqSets` stay what the history says. The laws
//! are `pq_sets_are_recorded`, and `latest_is_recorded` and `each_is_recorded` in `proofs/Keeping.antt`.
#![tactic(auto)]

mod digests;
mod entries;
mod laws;
mod making;
mod pq_entry;
mod pq_sets;

pub use digests::is_less;
pub use laws::pq_sets_are_recorded;
pub use making::make;
pub use pq_sets::PqSets;
