//! Tests of tuples, templates and their bytes (`tuple_tree`, `tuple_codec`), of matching (`template_match`) and of
//! spaces (`space`): worked rows, the same values under several allocators, and calls that memory is refused to.
#![tactic(auto)]

#[cfg(test)]
mod arena;
#[cfg(test)]
mod candidates;
#[cfg(test)]
mod get;
#[cfg(test)]
mod inner_faults;
#[cfg(test)]
mod items;
#[cfg(test)]
mod operations;
#[cfg(test)]
mod refusals;
#[cfg(test)]
mod refusing;
#[cfg(test)]
mod room;
#[cfg(test)]
mod rows;
#[cfg(test)]
mod spaces;
#[cfg(test)]
mod turns;
