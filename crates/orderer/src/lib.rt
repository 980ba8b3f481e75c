//! The orderer of a replica: what numbers, votes and changes views (Castro and Liskov, Practical Byzantine fault
//! tolerance and proactive recovery, TOCS 2002, on normal-case operation, garbage collection and view changes). It
//! knows no state, and executes nothing.
//!
//! An [`Orderer`] has the endpoint, which authenticates and seals frames, and the log of the three phases. It has the
//! number used last and the checkpoint sent last. For view changes it has the target, P and Q, the view changes that
//! came, and its own new view. The crate `replica` joins it to a desk, hands it the messages that came, and asks it for
//! committed batches.
//!
//! # What it keeps
//!
//! For each number within the marks, at most 32: one batch, a prepare and a commit of each replica, and the batch that
//! was committed in an earlier view. Of each replica: the three checkpoints of the largest numbers, and the latest view
//! change with its frame. Its own sets P and Q, which few views can make large (`pq_sets::PqSets`), and the frame of
//! its own new view.
//!
//! # What it costs
//!
//! A vote goes over the votes of one number, and a checkpoint over three of each replica. Sending again goes over
//! the numbers above the executed one. Nothing is hashed but batches, frames and what a signature covers.
//!
//! # What is proved
//!
//! If a history fits the outputs before a call, with the orderer before it, it fits those after it (`KeepsFitting`). So
//! two calls compose, and a loop's invariant is its contract. What fits is `FitsEvent`: the log, P and Q are what
//! the history certifies, and each frame among the outputs goes to the parties for whom it is. It holds beside any
//! desk.
//!
//! `take_batch`, `take_prepare`, `take_commit` and `take_checkpoint` take what the log has no fault for, and drop all
//! else. `multicast_votes` sends the prepare and the commit that are due of a number, and then none is due
//! (`MulticastsVotes`). `multicast_batch` sends the primary's batch for a number (`SaysBatch`). `free_number` gives the
//! next number if an active primary may assign it (`IsFree`).
//!
//! `multicast_again` sends again, in order, what the replica sent for the numbers above the executed one
//! (`OutputsHaveAll`), and `multicast_view_change_again` its view change (`OutputsHaveViewChange`). Both change
//! nothing.
//!
//! `sign_change` signs and stores the replica's own view change, or nothing changes (`MaySignChange`). `receive` stores
//! another's if nothing refuses it. `joined_view` gives the view to which `f + 1` others move the replica
//! (`IsJoinedBy`). `selection` gives what the new view begins with, if the view changes allow it (`IsSelection`).
//! `enter`, `log_assigned` and `multicast_all_votes` enter a view, batch by batch.
//!
//! If memory runs out, a call gives an error, and its caller stops.
//!
//! # How it is made
//!
//! - Contracts see an [`Orderer`] as `OrdererData`: its log, its sets P and Q and what it stores for view changes.
//! - Its histories have waiting requests, of which it has none. So the definitions name the desk's (`FitsWaiting`), and
//!   the crate stands above `desk`. Its code calls nothing there.
//! - A signed frame is kept as bytes, so a view change spends one key, however often it goes again.
#![tactic(auto)]

mod enter_view;
mod logging;
mod marks;
mod multicasting;
mod new_view;
mod orderer;
mod reading;
mod signing_frames;
mod view_change_in;
mod view_change_out;
mod votes;

pub use marks::entry_in;
pub use orderer::Orderer;
