//! A running cluster: each replica is a node with threads of its own, a client runs on its caller's thread, and one
//! journal has the entries of all.
//!
//! A node has two inboxes, each an unbounded channel, and a thread for each: one orders, the other answers reads
//! beside it. A thread takes locks in this order: order, shelf, journal. It makes a step and seals its frames before
//! it takes the journal's lock. The event is in the journal before its first byte is put on a channel, and the thread
//! holds no lock while it sends frames. Beside these, threads share the public keys alone, and no secret of a party.
//!
//! # What is proved
//!
//! These hold by the types, so also of values behind the locks. Each part of a node has stopped, or fits the history
//! of its share, and so does each client. So each event that a node or a client appends is right, and the trace is a
//! run's. [`ClientHandle::call`] says which entries of the client's history an answer rests on, and exactly when a
//! call is refused as stopped.
//!
//! [`Cluster::finish`] says this of the trace:
//!
//! - It is a run's. Each frame that a party got was sent, or names a faulty sender.
//! - It has the history of each correct replica and each given client, and in it each of these parties does all that
//!   it owes. It has no input that came to a party after it had stopped.
//! - It is linearizable, unless two different texts of the run have one digest or a message of a correct party is
//!   forged. `NoCollision` lists the texts, the pages of the executed states among them. Without faulty parties no
//!   message is forged.
//!
//! The run names exactly the parties that stopped: a client by its handle, a replica by its share, which only its
//! node gives ([`ReplicaShare`]). [`Cluster::start_with_drills`] is refused exactly if the drills are not those of
//! the faulty replicas. A stale replica answers reads as from a space without tuples, and sends nothing else.
//!
//! # What is not proved
//!
//! That anything happens: that a thread runs, that a frame comes, that a call is answered. What a replica did before
//! its threads ended, except for what its share shows. So it isn't proved that no replica stops without a reason. A
//! frame that a channel doesn't take is lost, as in a network. Tests show that clients get frames of a stale replica,
//! and none of a silent one. They also show that the journal takes as many entries as its limit says.
//!
//! # How it is made
//!
//! - A `NodeOrder` has the orderer, and a `NodeDesk` the desk with the share. Contracts see of either a party, a
//!   history and whether it stopped (`PartyState`).
//! - Each party has its own keys, and no other party's: a correct replica its row and its signer, a client or a stale
//!   replica its row. They share the public keys, which the seed gives as they are needed.
//! - If memory or the journal refuses, or a test's gate says so, the parts stop and nothing is sent. A frame goes into
//!   an inbox with the position at which it was sent. Its bytes lie in memory once, for the trace, the shares and all
//!   receivers.
//! - A thread that finds its inbox empty sleeps on a word beside the channel (`src/inbox.rt`). So it is woken once, by
//!   a thread that holds no lock.
//! - No thread is woken for frames with which it can do nothing yet. A client sleeps until a quorum of frames has come
//!   since its request. A replica that follows a primary, as its own frames tell, isn't woken by requests, which the
//!   primary's pre-prepares bring too, unless more come than there are clients. A pulse wakes either at once, and each
//!   message is taken in its order.
//! - A faulty replica has the same inboxes, and no node. Its threads do its drill (`src/drilling.rt`), which takes what
//!   comes, or answers reads from the empty space. Its frames name a faulty sender, so no position is asked of them.
//! - A new cluster has a handle of each client, and one that is handed out is new.
//! - `finish` ends and joins all threads, and takes each replica's share out of its node. It compares the journal with
//!   each share and each handle. The headline is the law `points_are_linear` on the trace. If no party is faulty,
//!   `carried_is_unforged` gives its first premise.
#![tactic(auto)]

mod cluster;
mod drill;
mod drilling;
mod entries;
mod fault;
mod faultless;
mod finishing;
mod gate;
mod handle;
mod handle_state;
mod inbox;
mod input;
mod node_desk;
mod node_order;
mod parties;
mod recording;
mod replica_share;
mod run;
mod serving;
mod shared;
mod turn;

pub use cluster::Cluster;
pub use drill::{Drill, may_start};
pub use fault::{CallFault, StartFault};
pub use faultless::is_faultless;
pub use gate::{Gate, Open};
pub use handle::ClientHandle;
pub use replica_share::ReplicaShare;
pub use run::{FinishFault, Run};
