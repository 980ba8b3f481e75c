//! The state of a replica as 1,024 pages of bytes under a tree of SHA-256 digests.
//!
//! Each page has the digest of its text. Each of the 32 inner parts has the digest of its 32 pages' digests, and the
//! root that of the inner parts' digests (Castro and Liskov, Practical Byzantine fault tolerance and proactive
//! recovery, TOCS 2002, on hierarchical state partitions; FIPS 180-4 for SHA-256). Two replicas that hold the same
//! pages have the same root. A replica that lags finds the pages that differ by going down from the root.
//!
//! Trees and snapshots share their texts and the digests of their pages: each page's text is owned by an `Arc`, and
//! so is each part. A write copies the part that it changes. A text is kept with its hasher, so a page to which more is
//! added is hashed from where it ended.
//!
//! # What is proved
//!
//! `root` and `children` are the plain recursion over all pages, though setting a page makes only three digests.
//! `set_page` and `set_pages` set all pages that they are given, or none if memory runs out. A [`Snapshot`] keeps its
//! pages whatever is set later, and gives a tree again.
#![tactic(auto)]

mod children;
mod digests;
mod page;
mod part;
mod parts;
mod text;
mod tree;

pub use digests::{CHILDREN, digest, digest_of_children};
pub use page::Page;
pub use tree::{PAGES, Snapshot, Tree};
