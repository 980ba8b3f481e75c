//! The tree over the pages of a state (Castro and Liskov, Practical Byzantine fault tolerance and proactive recovery,
//! TOCS 2002, on checkpoint management).

/// A SHA-256 digest (FIPS 180-4).
pub type Digest = [u8; 32];

/// A level of the tree over the 1,024 pages of a state.
#[derive(Clone, Copy, Debug, PartialEq, Eq, Drop)]
pub enum Level {
    /// The root, whose children are the 32 inner parts.
    Root,
    /// An inner part, whose children are 32 pages.
    Inner,
    /// A page.
    Page,
}
