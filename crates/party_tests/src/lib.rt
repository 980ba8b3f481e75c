//! Tests of the parts of a replica and of a client: a replica's endpoint (`frame_endpoint`), the state that it executes
//! (`execution`), its reads beside the order (`read_only`), and a client (`client_cert`). And tests of the points at
//! which the calls of a trace take effect (`points`).
#![tactic(auto)]

#[cfg(test)]
mod answers;
#[cfg(test)]
mod client;
#[cfg(test)]
mod endpoint;
#[cfg(test)]
mod order;
#[cfg(test)]
mod reads;
#[cfg(test)]
mod rings;
#[cfg(test)]
mod state;
