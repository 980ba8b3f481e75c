//! The pages before a page was taken.

use partition_tree::Tree;

/// The pages held before a page was taken. With these the page is given back. They share the texts of all other
/// pages.
#[derive(Drop)]
pub struct Replaced {
    pub(crate) index: u16,
    pub(crate) held: Tree,
    pub(crate) fetched: bool,
}
