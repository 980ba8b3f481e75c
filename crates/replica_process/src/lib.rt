//! A replica as a process: it reads records and writes records, and nothing else.
//!
//! Frames that come, timers that are over and links that change are told by records (`records`). [`serve`] steps a
//! replica by each, and writes a record for each frame that it sends, and for each timer that then begins (`patience`).
//! It reads no clock and opens nothing, so what it writes follows from what it reads. A replica is any [`Machine`];
//! that of the crate `replica` is one.
//!
//! # What is proved
//!
//! Over every reader and writer, and for every configuration that the machine fits: the bytes that are written are
//! those of a course over the records that were read (`Serves`), and its events are a correct replica's history
//! (`IsPromptReplica`): it is safe, and does all that it owes. Each event's outputs are written before the next
//! event's. Each frame has one record, with exactly the parties for whom it is. The timers are those for which the
//! replica's patience asks, and it gets no other timeouts.
//!
//! If reading fails or memory runs out, this is so of a front of the records. If writing fails, a front of the bytes
//! was written. All that is due is written and flushed before the reader is asked for a record that has not come whole:
//! `Process::take_record` requires it.
//!
//! # What it keeps
//!
//! Beside the machine: the longest record and 65,536 bytes that were read (`records`), and fewer than 65,536 bytes of
//! records that are not written yet, with those of one event behind them. It keeps no history.
#![tactic(auto)]

mod fault;
mod machine;
mod of_replica;
mod process;

pub use fault::ServeFault;
pub use machine::Machine;
pub use process::serve;
