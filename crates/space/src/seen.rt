//! What a look at a space shows.

use std::alloc::Global;
use tuple_tree::Tuple;

/// The answer to an operation that changes nothing. Its tuples lie in the space, and are no copies.
#[derive(Drop)]
pub enum Seen<'a> {
    Found(&'a Tuple<Global>),
    Absent,
    All(Vec<&'a Tuple<Global>>),
    /// The space doesn't know the operation.
    Refused,
}
