//! Tests of the commands on one space (`one_space`).
#![tactic(auto)]

#[cfg(test)]
mod endings;
#[cfg(test)]
mod manners;
#[cfg(test)]
mod rows;
#[cfg(test)]
mod scripts;
#[cfg(test)]
mod shown;
#[cfg(test)]
mod turns;
