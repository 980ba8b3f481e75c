//! Tests of what a process of a party stands on: records (`records`), timers (`patience`) and the loops of a replica
//! (`replica_process`) and of a client (`client_process`). Whole processes are joined by pipes (`pipes`).
#![tactic(auto)]

#[cfg(test)]
mod conversing;
#[cfg(test)]
mod joined;
#[cfg(test)]
mod pipes;
#[cfg(test)]
mod process;
#[cfg(test)]
mod readers;
#[cfg(test)]
mod reading;
#[cfg(test)]
mod serving;
#[cfg(test)]
mod timers;
#[cfg(test)]
mod writers;
#[cfg(test)]
mod writing;
