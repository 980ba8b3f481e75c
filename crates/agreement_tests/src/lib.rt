//! Tests of how replicas agree on an order: a replica's message log (`ordering`), and its changes of views
//! (`view_change`).
#![tactic(auto)]

#[cfg(test)]
mod answers;
#[cfg(test)]
mod batches;
#[cfg(test)]
mod views;
