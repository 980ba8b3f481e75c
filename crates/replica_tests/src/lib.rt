//! Tests of a replica (`replica`), one of four over real frames. They have a request that is numbered, prepared,
//! committed, executed and answered; reads; frames that come again, and frames that are dropped; checkpoints, marks
//! that move, and states that are fetched; views that change; and memory refused in each kind of event.
#![tactic(auto)]

#[cfg(test)]
mod answers;
#[cfg(test)]
mod checkpoints;
#[cfg(test)]
mod desks;
#[cfg(test)]
mod dropped;
#[cfg(test)]
mod frames;
#[cfg(test)]
mod other_keys;
#[cfg(test)]
mod phases;
#[cfg(test)]
mod pq_sets_in_views;
#[cfg(test)]
mod refused;
#[cfg(test)]
mod replicas;
#[cfg(test)]
mod signed;
#[cfg(test)]
mod states;
#[cfg(test)]
mod transfers;
#[cfg(test)]
mod views;
