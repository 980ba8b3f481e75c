//! Tests of what a process keeps on a disk: logs of events (`event_log`), and machines that outlive their process
//! (`lives`).
#![tactic(auto)]

#[cfg(test)]
mod adder;
#[cfg(test)]
mod disks;
#[cfg(test)]
mod failing;
#[cfg(test)]
mod forms;
#[cfg(test)]
mod outliving;
#[cfg(test)]
mod refusals;
#[cfg(test)]
mod torn;
