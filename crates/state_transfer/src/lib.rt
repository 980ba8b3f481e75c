//! The transfer of a state to a replica that lags, part by part (Castro and Liskov, Practical Byzantine fault tolerance
//! and proactive recovery, TOCS 2002, on state transfer and hierarchical state partitions).
//!
//! A replica that wants the state of a checkpoint asks for one place of its tree at a time. It asks for the root's
//! children, and then depth first for the children of each inner part, and for each page, that differs from its own.
//! It holds the pages of its own state, with the fetched ones in their places.
//!
//! # What is proved
//!
//! A [`Transfer`] is seen as plain data (`specs/Transfer.antt`), and each contract tells that data after the call.
//! `next_fetch` asks for the first missing place in depth-first order. A place is missing if it and each part above
//! it have other digests than wanted, and its children's digests aren't known. None is missing exactly if the held
//! pages have the wanted root.
//!
//! A transfer takes an answer exactly if it is for the place asked for last and has the digest wanted there.
//! Otherwise it tells the first fault that applies, and nothing changes. Digests that came serve only in their own
//! place, and only if their own digest is wanted there. `finish` gives the only pages with the wanted root, unless
//! texts over pages collide (`AreThePagesOf`). Law: `putting_back_restores`.
#![tactic(auto)]

mod differences;
mod laws;
mod missing;
mod part_fault;
mod place;
mod replaced;
mod transfer;

pub use laws::putting_back_restores;
pub use part_fault::PartFault;
pub use place::Place;
pub use replaced::Replaced;
pub use transfer::Transfer;
