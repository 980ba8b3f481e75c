//! PBFT's message log of one replica: the batches, prepares and commits of its view for the numbers within its marks,
//! the batches that were committed in earlier views, and the checkpoints of each replica (Castro and Liskov, Practical
//! Byzantine fault tolerance and proactive recovery, TOCS 2002, on normal-case operation, garbage collection and view
//! changes).
//!
//! # What is proved
//!
//! A [`Log`] is seen as plain data, and each call is an equation over that data. Which batches are logged, prepared and
//! committed, and which checkpoints are stable, follows from the messages that the log took; the first one of a sender
//! counts. The log takes a message exactly if no refusal holds; else it returns the first one that does, and nothing
//! changes. If the replica enters a later view, only a committed batch stays of each number.
//!
//! Laws: `first_votes_count`, `messages_are_read` (a taken message changes the answers at its number, and at no other),
//! `cuts_keep` (entries within the marks before and after a cut stay) and `committed_stay` (a later view keeps each
//! committed batch).
//!
//! # How it is made
//!
//! - The plain data (`LogData`) have a row for each number above the low mark, in order, and three checkpoints of each
//!   replica. A row has the logged batch, and the votes in order of arrival.
//! - `on_preprepare`, `on_prepare`, `on_commit` and `on_checkpoint` take a message, or say why it is dropped.
//! - `put_batch`, `add_vote` and `add_checkpoint` take the own messages as they are sent.
//! - `due_vote` and `next_batch` tell what a number still asks for.
//! - After `leave` a log asks for no vote. `enter` begins a later view. `next_batch` still gives a batch that was
//!   committed before.
//! - Votes and checkpoints have their room from the start. A batch lies behind an `Arc` with its digest, so it is
//!   hashed once and kept once, and taking a message asks for no memory.
#![tactic(auto)]

mod batch;
mod checkpoints;
mod dropped;
mod laws;
mod log;
mod places;
mod row;
mod taking;
mod votes;

pub use batch::HashedBatch;
pub use dropped::Dropped;
pub use laws::{committed_stay, cuts_keep, first_votes_count, messages_are_read};
pub use log::Log;
pub use votes::{Phase, Vote};
