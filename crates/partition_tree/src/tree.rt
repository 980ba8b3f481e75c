//! The tree, and its state at one moment.

ghost use Rattle.std.specs.Prelude.{◌≡◌, ◌<◌, [], IfOk, IsOk, OnOk, OnErr, length, slice_index_or, slice_set};
ghost use Rattle.partition_tree.specs.Digests.{root_of, empty_pages};
ghost use Rattle.partition_tree.specs.Levels.{parts_at, children_of};
ghost use Rattle.partition_tree.specs.Changes.{pages_with};

use crate::children::Children;
use crate::digests::CHILDREN;
use crate::page::Page;
use crate::part::Part;
use crate::parts::{change_all, put, renew};
use std::alloc::Global;
use std::marker::Model;
use std::sync::Arc;
use terms::{Digest, Level, NoMemory};

/// How many pages there are.
pub const PAGES: usize = 1024;

/// The pages 0 to 1,023, each a text of any length in bytes, under a tree of digests. Trees and snapshots share the
/// parts in which they agree. A write goes to a copy of the page's part, which still shares the other texts.
#[derive(Drop)]
pub struct Tree {
    parts: Vec<Arc<Part>>,
    inner: Children,
    root: Digest,
}

impl Model for Tree {
    ghost use Rattle.std.specs.Prelude.{ℕ, List};

    ghost Value = { List (List ℕ) };

    ghost use Rattle.partition_tree.specs.Parts.{pages_held};
    ghost use Rattle.partition_tree.specs.Owners.{IsTree};

    ghost view = { λ t. pages_held t.parts.items };

    ghost invariant = { λ t. IsTree t.parts.items t.inner t.root };
}

impl Tree {
    /// A tree of empty pages. NoMemory if memory runs out.
    pub fn new(alloc: Global) -> Result<Tree, NoMemory>
        ensures { IfOk result (λ t. t ≡ empty_pages) }
    {
        let part = Arc::new(alloc, Part::empty(alloc)?)?;
        let mut parts = Vec::with_capacity(alloc, CHILDREN)?;
        for _part in 0..CHILDREN {
            parts.push(part.clone()?)?;
        }
        let inner = Children::alike(alloc, part.digest())?;
        let root = inner.digest();
        Ok(Tree { parts, inner, root })
    }

    /// The text of page `i`, 0 to 1,023. Takes no memory.
    pub fn page(&self, i: usize) -> &[u8]
        requires { i < PAGES }
        ensures text { result.now ≡ slice_index_or self.now i [] }
        ensures count { length self.now ≡ PAGES }
    {
        self.parts[i / CHILDREN].page(i % CHILDREN)
    }

    /// The digests of a part's children in order: those of the inner parts for the root, at index 0, and those of the
    /// pages `32 * index` to `32 * index + 31` for an inner part, at an index of 0 to 31. Takes no memory.
    pub fn children(&self, level: Level, index: usize) -> &[Digest; CHILDREN]
        requires { index < parts_at level }
        ensures { result.now ≡ children_of self.now level index }
    {
        match level {
            Level::Root => self.inner.as_array(),
            Level::Inner => self.parts[index].digests(),
            Level::Page => unreachable!(),
        }
    }

    /// The digest of the root. Takes no memory.
    pub fn root(&self) -> Digest
        ensures { result ≡ root_of self.now }
    {
        self.root
    }

    /// Sets the text of page `i`, 0 to 1,023. Hashes it, or what stands in it behind the page's text, and twice 1,024
    /// bytes of digests. If the page has that text
    /// already, it hashes nothing and takes no memory. An error leaves the tree as it was.
    pub fn set_page(&mut self, i: usize, text: &[u8]) -> Result<(), NoMemory>
        requires { i < PAGES }
        ensures ok { OnOk result (self.new ≡ slice_set self.old i text.now) }
        ensures err { OnErr result (self.new ≡ self.old) }
        ensures same { slice_index_or self.old i [] ≡ text.now → IsOk result }
    {
        if self.page(i) == text {
            return Ok(());
        }
        let text = Vec::from_slice(*self.parts.allocator(), text)?;
        let part = i / CHILDREN;
        put(&mut self.parts[part], i % CHILDREN, text)?;
        self.inner.set(part, self.parts[part].digest());
        self.root = self.inner.digest();
        Ok(())
    }

    /// Sets the texts of several pages; of two texts for one page the later counts. Hashes each text that differs
    /// from the page's, or what stands in it behind that one, each part above such a page once, and the root once.
    /// Takes over the texts' memory. An error leaves the tree as it was.
    pub fn set_pages(&mut self, pages: Vec<Page>) -> Result<(), NoMemory>
        ensures ok { OnOk result (self.new ≡ pages_with pages.items self.old) }
        ensures err { OnErr result (self.new ≡ self.old) }
    {
        let mut parts = self.parts.clone()?;
        let changed = change_all(&mut parts, pages)?;
        renew(&mut self.inner, parts.as_slice(), &changed);
        self.root = self.inner.digest();
        self.parts = parts;
        Ok(())
    }

    /// The pages as they are now, whatever is set later. The snapshot shares their texts and digests. NoMemory if
    /// memory runs out.
    pub fn snapshot(&self) -> Result<Snapshot, NoMemory>
        ensures { IfOk result (λ s. s ≡ self.now) }
    {
        Ok(Snapshot { tree: self.copy()? })
    }

    /// An equal tree, which shares the texts and the digests of all pages until either tree sets them. NoMemory if
    /// memory runs out.
    pub fn copy(&self) -> Result<Tree, NoMemory>
        ensures { IfOk result (λ t. t ≡ self.now) }
    {
        let parts = self.parts.clone()?;
        let inner = self.inner.clone()?;
        Ok(Tree {
            parts,
            inner,
            root: self.root,
        })
    }
}

/// The pages of a tree as they were at one moment.
#[derive(Drop)]
pub struct Snapshot {
    tree: Tree,
}

impl Model for Snapshot {
    ghost use Rattle.std.specs.Prelude.{ℕ, List};

    ghost Value = { List (List ℕ) };

    ghost view = { λ s. s.tree };
}

impl Snapshot {
    /// As [`Tree::page`].
    pub fn page(&self, i: usize) -> &[u8]
        requires { i < PAGES }
        ensures text { result.now ≡ slice_index_or self.now i [] }
        ensures count { length self.now ≡ PAGES }
    {
        self.tree.page(i)
    }

    /// As [`Tree::children`].
    pub fn children(&self, level: Level, index: usize) -> &[Digest; CHILDREN]
        requires { index < parts_at level }
        ensures { result.now ≡ children_of self.now level index }
    {
        self.tree.children(level, index)
    }

    /// As [`Tree::root`].
    pub fn root(&self) -> Digest
        ensures { result ≡ root_of self.now }
    {
        self.tree.root()
    }

    /// A tree of these pages, shared as by [`Tree::copy`].
    pub fn tree(&self) -> Result<Tree, NoMemory>
        ensures { IfOk result (λ t. t ≡ self.now) }
    {
        self.tree.copy()
    }
}
