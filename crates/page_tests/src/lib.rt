//! Tests of the pages that replicas compare and pass on: their digests (`partition_tree`), those of tuples (`space`)
//! and those of last replies (`reply_cache`).
#![tactic(auto)]

#[cfg(test)]
mod answers;
#[cfg(test)]
mod partitions;
#[cfg(test)]
mod replies;
#[cfg(test)]
mod sharing;
#[cfg(test)]
mod spaces;
