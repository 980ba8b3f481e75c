//! A machine that outlives its process: each event is in a log, with the machine's outputs, before any of them goes
//! out.
//!
//! This is pessimistic message logging (Elnozahy, Alvisi, Wang and Johnson, *A survey of rollback-recovery protocols in
//! message-passing systems*, ACM Computing Surveys 2002). A machine is any [`Machine`]: it takes inputs, and gives
//! outputs for each. [`Lasting`] logs both, syncs, and only then gives the outputs out. A further life plays the log on
//! a new machine, and compares each output.
//!
//! # What is proved
//!
//! Over any machine and any [`Disk`](sqlite_disk::Disk):
//!
//! - **Nothing goes out before what it rests on is synced** ([`Lasting::sync`]). Whether a call succeeded, failed or
//!   never returned: whatever a crash leaves keeps the events that were synced.
//! - **A further life goes on where the log ends** ([`Lasting::resume`]). The machine is what the log's history left,
//!   and gave the outputs that it says. A log that differs is refused, and a damaged one is left as it is.
//! - **What may have stayed goes out again.** The outputs of the last group of the file are given at the start of a
//!   life.
//! - **What went out lasts** (`what_went_out_lasts`). Over any chain of lives and crashes, also in the midst of
//!   opening, the history that the file tells begins with every event of which anything went out in any life.
//! - A call that failed ends the life: each later one is refused.
//!
//! It isn't supposed that a machine gives the same again, nor that a check tells a group from what a crash left.
//!
//! # What it keeps
//!
//! Beside the machine: the events that are not synced, with their outputs, once in the log and once to be given out.
//! How many come before a sync is the caller's choice. While a log is played, one of its groups and that group's
//! outputs.
#![tactic(auto)]

mod fault;
mod lasting;
mod laws;
mod machine;
mod replaying;

pub use fault::{LifeFault, StepFault};
pub use lasting::Lasting;
pub use laws::what_went_out_lasts;
pub use machine::Machine;
