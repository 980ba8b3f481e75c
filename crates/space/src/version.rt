//! Versions of the space.

/// A space of version 1 holds at most so many tuples.
pub const MAX_TUPLES: usize = 8192;

/// A space of version 2 holds at most so many tuples.
pub const MAX_TUPLES_V2: usize = 12288;

/// Which operations a space knows. A space of version 1 refuses each operation of version 2.
#[derive(Clone, Copy, PartialEq, Eq, Debug)]
pub enum Version {
    One,
    Two,
}
