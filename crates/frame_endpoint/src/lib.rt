//! The endpoint of a replica of the replicated space: it authenticates received frames, and makes those that the
//! replica sends (Castro and Liskov, Practical Byzantine fault tolerance and proactive recovery, TOCS 2002, on the
//! authentication of messages).
//!
//! # What is proved
//!
//! An [`Endpoint`] accepts exactly the frames that are authentic to the replica by the definitions, and tells whether
//! each request of a batch is authentic. It sends an output with its receivers. The bytes are a frame of the replica's
//! own with the message, and a MAC for each receiver, or a signature for a signed message: `IsOutgoing` of the
//! protocol, in each configuration that gives the replica its keys, whoever is faulty there. The output goes exactly to
//! the parties for whom the frame is.
//!
//! A frame is encoded once, however many receive it. A signed frame is returned as bytes, which may be sent any number
//! of times. So a view change or new view spends one key, however often the replica sends it. The functions that make
//! messages tell which message it is, and that it may be sent.
//!
//! # How it is made
//!
//! - Contracts see an [`Endpoint`] as what the replica knows of the members, its number, and how many of its 64 keys
//!   have signed. It has the keys of its ring, its own signer and the public keys.
//! - A frame that it sends is `IsOutgoingFrame` (`specs/Endpoint.antt`), so the laws of `replica_histories` take it as
//!   it is.
#![tactic(auto)]

mod digests;
mod endpoint;
mod messages;
mod receivers;
mod receiving;
mod sealing;
mod send_fault;
mod signing_frames;

pub use endpoint::Endpoint;
pub use messages::{
    checkpoint_message, commit_message, fetch_message, meta_message, new_view_message,
    page_message, pre_prepare_message, prepare_message, reply_message, view_change_message,
};
pub use sealing::seal_for_one;
pub use send_fault::SendFault;
