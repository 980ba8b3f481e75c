//! What several crates name: the error for out of memory, the parties, the numbers that order requests, and the
//! levels of a state's tree.
//!
//! # What is proved
//!
//! A client's number in frames comes after all numbers of replicas, and its type makes it fit. `Party::number` is the
//! number of a party in frames.
#![tactic(auto)]

mod no_memory;
mod order;
mod parties;
mod state;

pub use no_memory::NoMemory;
pub use order::{Mode, Number, Timestamp, View};
pub use parties::{ClientId, FIRST_CLIENT, MAX_CLIENTS, Party, ReplicaId};
pub use state::{Digest, Level};
