//! A client of the replicated space, over frames (Castro and Liskov, TOCS 2002, on the client and on read-only
//! operations).
//!
//! A client asks all replicas, for a read first by a read-only request. It accepts an answer once the latest replies
//! of a quorum, `2f + 1` replicas, agree in mode, in answer and in the number of the state. If each replica has
//! answered a read and no quorum agrees, the client falls back to an ordered request of the same timestamp. Each open
//! call does so at [`Event::Retry`].
//!
//! # What is proved
//!
//! If a history fits a client before an event, the longer history fits it after the event. [`Client::new`] fits the
//! empty history in each configuration that gives the client its keys, whoever is faulty there. [`Client::invoke`] and
//! [`Client::step`] keep the fit, also when they refuse. Each history that fits is a correct client's (`IsClient`). So
//! it is of a client that is started again: [`Client::start_above`] fits an empty life (`FitsLife`), and a life behind
//! earlier ones is a correct client's over its lives (`IsClientOfLives`, by [`laws::lives_follow_each_other`]). A call
//! while another is open is refused and changes nothing. If memory runs out, the client has stopped: it gives nothing,
//! then and later. The client opens no frames but replies. Each request goes exactly to all replicas.
//!
//! # The cost of a reply
//!
//! The client takes sender, mode, number and the bytes of the answer from the frame where it lies, and copies these
//! bytes. It compares them with the latest reply of each replica if the numbers agree: each answer has one spelling.
//! Only the answer that it accepts is decoded. A reply to an earlier call, or to another client, is dropped by the
//! bytes that say so, and no MAC of it is tested.
//!
//! # Memory that strangers can take
//!
//! Only the keys of its [`Ring`](authenticator::Ring), which bounds them; the client keeps nothing of frames without
//! a replica's MAC. Of replies it keeps the latest of each replica and mode, while the call is open: at most `2 (3f +
//! 1)` answers, of at most 65,538 bytes each.
//!
//! # How it is made
//!
//! - The latest replies of each mode lie in a map of their own, in order of arrival.
//! - Four functions decide what the definition's `reaction` asks for: `first_mode`, `Call::next`, `Ballot::is_like` and
//!   `retry`. `proofs/Turning.antt` proves that their turn (`turn_of`) is the definition's.
#![tactic(auto)]

mod asking;
mod ballots;
mod call;
mod client;
pub mod laws;
mod receiving;

pub use client::{Client, Event, InvokeFault};
