//! A missing place.

use crate::place::Place;
use terms::Digest;

/// A missing place, and the digest wanted there.
#[derive(Clone, Copy, Drop)]
pub struct Missing {
    pub place: Place,
    pub digest: Digest,
}
