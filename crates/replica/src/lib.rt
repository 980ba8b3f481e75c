//! A replica of the replicated space, over frames (Castro and Liskov, Practical Byzantine fault tolerance and proactive
//! recovery, TOCS 2002, on normal-case operation and view changes). As the primary it assigns numbers to requests; as a
//! backup it takes the primary's batches. It goes through the three phases, executes committed batches and replies to
//! clients.
//!
//! After each period it keeps its state and multicasts a checkpoint with the root. If a quorum sent the same
//! checkpoint, the marks move up to it. If the quorum is ahead, the replica fetches that state part by part and
//! installs it.
//!
//! On a timeout while a request waits, it signs a view change for the next view and is inactive until a new view comes.
//! It joins f + 1 others that move to a later view. As the primary of the view that it moves to, it makes the new view
//! as soon as the stored view changes allow it.
//!
//! It answers reads at once from the executed state, beside the order. Their templates lie in an arena that lasts as
//! long as the event.
//!
//! [`Replica::split`] takes a replica apart for two threads. The [`Orderer`] numbers and votes (the crate `orderer`).
//! The [`Desk`] executes and replies, and answers reads by itself (the crate `desk`). Each has one of its crate's until
//! it stops. A step of the whole is a step of its orderer on its own desk. The whole keeps both joined, so that no
//! event moves them.
//!
//! # What it keeps
//!
//! What strangers can make it keep is bounded. The head of `orderer` says what that part keeps of votes, checkpoints
//! and view changes. The desk keeps the latest request of each client; the states at its own checkpoints from the low
//! mark on, at most three; one transfer, by the pages of one state and 33 times 1,024 bytes of digests; and at most 512
//! calls of the new view with which its view began. States share equal pages.
//!
//! # What it costs
//!
//! The event bounds the cost of a step, by the votes and checkpoints that the orderer goes over. An execution hashes
//! nothing of the state. A checkpoint writes and hashes only the pages that requests may have changed since the last
//! one.
//!
//! Serving a part of a kept state needs no hash. The replica hashes a part that arrives, with the digests above it, and
//! compares it with at most 64 digests. If requests were executed since the last part arrived, it hashes the pages that
//! they may have changed, and the fetched ones, once more.
//!
//! # What is proved
//!
//! If a history fits a replica before an event, the history with the event's entries fits it afterwards.
//! [`Replica::new`] fits the empty history of each configuration that gives the replica its keys, whoever is faulty
//! there, and [`Replica::step`] extends the history by its outputs, also if it stops. A history that fits is that of a
//! correct replica (`IsReplica`): safe, with all that the replica owes (`Owes`), in each view.
//!
//! A replica owes numbers, prepares, commits, executions, replies, checkpoints, view changes, new views, and answers to
//! reads and fetches. It owes the fetches of a state part by part until it is installed, and on a timeout the open
//! fetch again. To a request that comes again it owes the kept reply, or, while the request waits, what the replica
//! sent and others may lack. It owes nothing for what it drops.
//!
//! If memory runs out, the replica has stopped: it emits nothing, then and later. The parts extend the same histories,
//! steps and reads in any order: the desk fits the whole history, the orderer fits it without what stands beside
//! ordering. An orderer and a desk of another replica emit nothing together, and neither changes. A part is told by its
//! replica's number, the numbers of its system, and a code that its keys give (`MemberData`). Each frame that a step or
//! a read sends goes exactly to the parties for whom it is.
//!
//! # How some events go on
//!
//! `docs/architecture.md` has the way of an event. These points are beside it:
//!
//! - **A request that comes again** (`multicast_all_again`). An active replica sends its own new view again. Then it
//!   sends its batch, prepare and commit of each number above the executed one, and last its latest checkpoint. An
//!   inactive one sends its view change. By contract all of it is among the outputs (`OutputsHaveAll`,
//!   `OutputsHaveViewChange` in `orderer/specs/Multicasting.antt`), as `Owes.says_again` asks.
//! - **A part that completes a state** (`install`, `DueWork::State`). The marks move, and committed batches are
//!   executed. A page that completes no state is given back.
//! - **A tick** (`on_timeout`, `change_view`). The replica sends the open fetch again, as `Owes.fetches_again` asks. A
//!   replica that moves to the next view signs a view change by P, Q and its kept states, leaves its view, and sends
//!   it.
//! - **A view change** (`receive`, `begin_view`). The primary signs and sends what `select` gives over the view changes
//!   that it holds. If nothing is selected there, it owes none (`Owes.new_views`): `select` gives what meets the rules
//!   over any part of them.
//! - **A new view** (`enter`, `DueWork::View`), the own one or another's. Calls in it count as numbered. The log enters
//!   the view, the marks move up to the start, and the batches are logged and enter Q. If the start is ahead, its state
//!   is fetched (`Owes.fetches_start`). Then votes are sent, and committed batches are executed.
//!
//! # How it is made
//!
//! - The contracts are relations that any history passes through. If a history fitted the outputs before the call, it
//!   fits those after it: `KeepsFitting` of the orderer, `FitIsKept` of both parts. So two calls compose, and a loop's
//!   invariant is its contract.
//! - What each part knows is told with the history: its configuration gives it to the orderer (`Gives`) and to the desk
//!   (`IsDeskOf`). So no step compares the keys of both.
//! - Within an event `PartsFitEvent` ties both parts, with the messages that are still due, to that history.
//!   Between events `Fits` ties a replica to a history, and `HistoryStaysRight` hands every such history on.
//! - The desk's data tell the desk of the history (`desk_of` in `desk/specs/DeskOf.antt`). `IsDeskOf` says what is
//!   right about them.
//! - Each part is tied by itself (`DeskFitsHistory`, `OrdererFitsHistory` in `specs/Parted.antt`). The desk fits the
//!   whole history, the orderer the history without read-only requests and their replies. So a desk that answers a read
//!   on its own (`Desk::read`) needs no orderer.
//! - By the law `parts_are_whole` the parts hold exactly what the joined replica holds. It rests on `reads_are_idle`:
//!   entries beside the order bring nothing that a certificate counts, which two bytes of their frames tell
//!   (`marks_tell_reads`).
//! - Three facts settle the end of an event. Nothing is left to send or to execute (`NothingIsLeft`). The waiting
//!   requests that count as numbered are those to which the history gave a number (`FitsWaiting`). No free number has a
//!   request that waits for it (`IsAllNumbered`).
#![tactic(auto)]

mod both_parts;
mod checkpoints;
mod enter_view;
mod executing;
mod member;
mod new_view;
mod numbering;
mod parted;
mod parted_laws;
mod reading;
mod replica;
mod standing;
mod taking;
mod transfers;
mod view_change_in;
mod view_change_out;

pub use parted::{Desk, Orderer};
pub use parted_laws::{
    marks_tell_reads, parts_are_whole, reads_are_idle, running_replicas_are_prompt,
};
pub use replica::{Event, Numbers, Replica};
