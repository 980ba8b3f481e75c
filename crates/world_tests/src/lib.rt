//! Tests of the world of schedules (`schedule_world`). They have worked runs of correct parties and of faulty ones;
//! reads beside writes that are under way, and replies that are kept; checkpoints and states that are fetched; a
//! space that is upgraded meanwhile; frames that are forged or that faulty replicas sign; views that change; steps
//! that may not come; and memory that runs out. Most runs stand in tables (`runs`), and one function reads a table:
//! the proof of a function that makes a run and looks at it takes long.
#![tactic(auto)]

#[cfg(test)]
mod calls;
#[cfg(test)]
mod checkpoints;
#[cfg(test)]
mod forged;
#[cfg(test)]
mod kept_replies;
#[cfg(test)]
mod left_behind;
#[cfg(test)]
mod liars;
#[cfg(test)]
mod memory;
#[cfg(test)]
mod reads;
#[cfg(test)]
mod refusals;
#[cfg(test)]
mod reports;
#[cfg(test)]
mod runs;
#[cfg(test)]
mod signatures;
#[cfg(test)]
mod upgrades;
#[cfg(test)]
mod views;
#[cfg(test)]
mod walks;
#[cfg(test)]
mod worlds;
