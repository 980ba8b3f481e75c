//! Laws of one replica over its history, on which its code stands: its data fit the frames that it received and sent,
//! and it sends all that it owes, except for reads (Castro and Liskov, Practical Byzantine fault tolerance and
//! proactive recovery, TOCS 2002, on normal-case operation, garbage collection, view changes and state transfer).
//!
//! # What is proved
//!
//! A replica's data are in two parts: its desk (the executed state, the kept snapshots, the waiting requests, with
//! their frames, and the open transfer), and its log, that of the crate `ordering`. Each has its own relation to one
//! history.
//!
//! An event begins with an input ([`inputs_fit`]). Each output that the log's own answers ask for, or that is due,
//! leads to a longer history which they fit ([`outputs_fit`]), and so does what the replica sends again
//! ([`own_go_again`]). If nothing is due any more, the history is that of a replica that orders requests rightly
//! ([`events_end`], [`histories_are_replicas`]).
//!
//! An ordering message or a checkpoint counts if the log has no fault for it, and else changes nothing
//! ([`messages_count`], [`messages_drop`]). An input that changes nothing passes ([`inputs_pass`]). A checkpoint that
//! becomes stable, or an installed state, moves the marks, and the log forgets the rows and the checkpoints up to the
//! low mark ([`marks_move`]). The history alone tells which waiting requests have numbers at the primary, so cut rows
//! take nothing from it ([`numbers_stay`], [`numbers_are_assigned`], [`waiting_keeps_numbers`]).
//!
//! A state transfer is open from the event on in which a quorum of checkpoints is above the state, and asks for one
//! place at a time ([`fetches_fit`], [`parts_enter`]). Its root is wanted, and its parts were received
//! ([`parts_count`], [`parts_are_taken`], [`transfers_stay`]). A later quorum moves it, and executions may reach it
//! ([`transfers_begin`], [`transfers_ask`], [`quorums_are_fetched`]). If all pages have the root, their state may be
//! installed ([`transfers_install`]). A part that it awaits brings it on ([`parts_bring_on`]). Whoever fetches a part
//! of a kept state, of which no two have one number, gets it ([`parts_fit`], [`kept_are_one`],
//! [`fetches_are_answered`]).
//!
//! A replica leaves its view by a view change that the history determines ([`views_change`]), and enters a later one by
//! a new view that it takes, or sends as the primary ([`views_begin`]). The log then has the new view's batches, and
//! the batches that were committed in earlier views. For its own view changes it keeps the batches that it logged and
//! those that it committed ([`pq_sets_are_kept`]), and of each other replica it stores the latest view change that
//! counted ([`changes_are_held`]).
//!
//! Its view-change data go from entry to entry ([`entries_pass`]). They stay if an entry changes nothing
//! ([`entries_keep_changes`]). The batches that are logged and committed enter Q and P ([`changes_stay`]). The data
//! have the view changes that the replica sends and takes, and the new view that begins the view
//! ([`changes_are_made`]).
//!
//! The replica has one view change to send ([`views_change`]), and others move it to a view exactly if the history says
//! so ([`changes_are_held`]). Each spent key signed a sent frame. If the replica selects nothing over its data, it has
//! no new view left to send by its history ([`no_views_are_left`]).
//!
//! # How it is made
//!
//! - `DeskFitsBetweenEvents` and `LogFitsBetweenEvents` tie desk and log to one history, and neither speaks of the
//!   other. The premises of the laws are answers of the log: `due_prepare`, `committed_batch`, a fault.
//! - Rows up to the low mark, whose own votes were sent, are forgotten, and so are checkpoints up to it. Those above
//!   the mark are the same in log and history. So the history tells which waiting requests have numbers
//!   (`FitsNumbers`).
//! - A transfer on the desk is the plain data of `state_transfer`, and `FitsStateTransfer` ties it to the history. Its
//!   place was asked for last, for the greatest number of all. The log may count a quorum of checkpoints above the
//!   executed state and the open transfer. Then the fetch of its root is due in that event (`fetch_due`,
//!   `FetchesQuorums`). So between events each such quorum was fetched (`QuorumsFetched`). The transfer that the fetch
//!   opens or moves is open after it (`FetchesFit`).
//! - Parts that come change the transfer alone, and so does resting it on the pages of a newer state (`DigestsEnter`,
//!   `PagesEnter`, `TransfersChange`). An execution that reaches its number closes it, and its installation cuts the
//!   log there (`InstallationsFit`).
//! - A reply from the executed state answers a read (`ReadsFit`). `EventsEnd` asks that an event answers whatever its
//!   input asks (`AnswersInput` in `specs/Questions.antt`).
//! - One record, `Changes`, has all that a replica holds for view changes, and `FitsChanges` ties it to the history.
//!   Most entries leave it as it was (`ChangesStay`, by `KeepsChanges`). They take no view, say no view change, log
//!   nothing, and are no view change that counts. So each method of the code proves its own changes alone.
#![tactic(auto)]

mod changes;
mod laws;
mod views;

pub use changes::{
    changes_are_made, changes_stay, entries_keep_changes, entries_pass, no_views_are_left,
};
pub use laws::{
    events_end, fetches_are_answered, fetches_fit, histories_are_replicas, inputs_fit, inputs_pass,
    kept_are_one, marks_move, messages_count, messages_drop, numbers_are_assigned, numbers_stay,
    outputs_fit, own_go_again, parts_are_taken, parts_bring_on, parts_count, parts_enter,
    parts_fit, quorums_are_fetched, reads_fit, transfers_ask, transfers_begin, transfers_install,
    transfers_stay, waiting_keeps_numbers,
};
pub use views::{changes_are_held, pq_sets_are_kept, views_begin, views_change};
