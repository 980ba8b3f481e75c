//! Tests of a running cluster (`space_node`): its answers, nodes that are held or stop, reads beside ordering, journals
//! that are full, and faulty replicas.
#![tactic(auto)]

#[cfg(test)]
mod answers;
#[cfg(test)]
mod calls;
#[cfg(test)]
mod clusters;
#[cfg(test)]
mod drills;
#[cfg(test)]
mod full;
#[cfg(test)]
mod gates;
#[cfg(test)]
mod held;
#[cfg(test)]
mod starts;
#[cfg(test)]
mod stopped;
