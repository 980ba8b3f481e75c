//! The desk of a replica: what executes and answers (Castro and Liskov, Practical Byzantine fault tolerance and
//! proactive recovery, TOCS 2002, on normal-case operation, checkpoints and state transfer). It orders nothing, and
//! knows of no log and no vote.
//!
//! A [`Desk`] has the executed state, the states that it kept at checkpoints, the requests that wait for execution, the
//! open state transfer, and the keys for replies. The crate `replica` gives it the batches that are committed, and asks
//! it what waits.
//!
//! # What is proved
//!
//! `execute` executes the batch of the next number, tells it, and replies to each request that ran. It forgets only
//! requests that ran or are older, keeps the state if a checkpoint is due, and closes a transfer that it has reached
//! (`RunsWhole`). `reply_again` sends a kept reply, and no other. `read` answers a read from the executed state, and
//! drops all else (`AnswersBytes`).
//!
//! `arrival_of` tells a new request from one that waits and from an older one (`IsArrival`). A client has one waiting
//! request, the latest. `note_assigned` and `note_numbered` say which of them have a number in the view.
//!
//! At most three states are kept, the newest first, and none below the low mark. `send_part` sends a part of one of
//! them to the replica that asks for it, and to no other. `set_target`, `take_digests`, `take_page` and `has_next_part`
//! fetch a state that is ahead. `install` puts it in place of the executed one, only if its root is the wanted one and
//! no client's timestamp falls (`Installs`).
//!
//! Each frame goes to the party for whom it is (`SealsForOne`). If memory runs out, a call gives an error, and its
//! caller stops.
//!
//! # How it is made
//!
//! - The contracts are relations between the desk before and after a call, and the outputs. What a history makes of
//!   them is proved in `replica` (`proofs/Desking.antt` there).
//! - [`Taken`] is what a page replaced. With it the page can be given back, as if it had not arrived.
#![tactic(auto)]

mod arriving;
mod assigned_calls;
mod desk;
mod fetching;
mod keeping;
mod reading;
mod snapshots;
mod transfer;
mod waiting;

pub use arriving::Arrival;
pub use desk::Desk;
pub use transfer::Taken;
pub use waiting::{AssignedCall, WaitingRequest};
