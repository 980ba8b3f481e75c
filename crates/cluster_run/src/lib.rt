//! The operations of a script on a running cluster: each client calls its own, one after another, in a thread of its
//! own.
//!
//! # What is proved
//!
//! At `Ok`, `run` gives an answer for each operation, in their order. Operation `i`, counted from 0, is call `i /
//! clients` of client `i % clients`. There is one trace of the cluster in which each client accepted these answers to
//! its calls. The trace is a run's, whatever the faulty replicas do. If no replica is faulty, nothing in it is forged.
//! If nothing is forged, it is linearizable unless two different texts of the run have one digest: `NoCollision` lists
//! them, the pages of the executed states among them.
//!
//! Drills that are not those of the configuration's faulty replicas are refused, and so is a faulty client. Otherwise a
//! journal is refused that takes fewer than [`least_entries`] for each operation. Each of these refusals comes exactly
//! then. A run in which all operations are answered has no fewer entries ([`answered_operations_take_entries`]).
//!
//! # What is not proved
//!
//! That nothing is forged in the trace of a cluster with drills. Only the code shows that a silent replica sends
//! nothing, and that a stale one seals its own replies alone.
//!
//! That `run` returns: it waits for the threads, and these for replies. Tests (`command_tests`) show that a run goes on
//! beside a silent replica or a stale one, and without a primary that takes no event or has stopped. They show that it
//! ends if more nodes have stopped than may fail, and that its journal takes no more entries than its limit. Only the
//! code shows when the clients and the replicas learn that time went by, and which fault a run gives that fails after
//! its start.
#![tactic(auto)]

mod calling;
mod dealing;
mod fault;
mod idle_time;
mod laws;
mod progress;
mod report;
mod room;
mod running;

pub use fault::RunFault;
pub use laws::answered_operations_take_entries;
pub use progress::{Unwatched, Watch};
pub use report::{Parties, Report};
pub use room::least_entries;
pub use running::run;
pub use space_node::{Drill, Gate, Open, is_faultless};
