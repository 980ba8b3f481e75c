//! Whose log it is.

/// Whose log it is: 16 bytes of a digest of the owner's keys and configuration, which no stranger knows.
///
/// A header has both numbers. So a log of other keys is refused. Nobody else can make bytes that are a sound group, so
/// nothing that a stranger sends, and that is logged, looks like one.
#[derive(Clone, Copy, PartialEq, Eq)]
pub struct Owner {
    /// Each group begins with it.
    pub mark: u64,
    /// Each check is made under it.
    pub key: u64,
}
