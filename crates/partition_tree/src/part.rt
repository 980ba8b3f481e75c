//! An inner part of the tree: its pages with their digests.

ghost use Rattle.std.specs.Prelude.{◌≡◌, ◌<◌, [], IfOk, OnOk, OnErr, map, replicate, slice_index_or, slice_set};
ghost use Rattle.sha2.specs.Sha256.{sha256};
ghost use Rattle.partition_tree.specs.Parts.{part_digest};

use crate::children::Children;
use crate::digests::{CHILDREN, digest};
use crate::text::Text;
use std::alloc::{AllocError, Global};
use std::marker::Model;
use std::sync::Arc;
use terms::{Digest, NoMemory};

/// The texts of 32 pages, each with an owner of its own that others may share, and their digests.
#[derive(Drop)]
pub struct Part {
    texts: Vec<Arc<Text>>,
    digests: Children,
}

impl Model for Part {
    ghost use Rattle.std.specs.Prelude.{ℕ, List};
    ghost use Rattle.partition_tree.specs.Texts.{texts_of, IsPart};

    ghost Value = { List (List ℕ) };

    ghost view = { λ p. texts_of p.texts.items };

    ghost invariant = { λ p. IsPart p.texts.items p.digests };
}

impl Part {
    /// A part of empty pages, which share one text.
    pub fn empty(alloc: Global) -> Result<Part, NoMemory>
        ensures { IfOk result (λ p. p ≡ replicate 32 []) }
    {
        let text = Arc::new(alloc, Text::new(Vec::new(alloc)))?;
        let mut texts = Vec::with_capacity(alloc, CHILDREN)?;
        for _page in 0..CHILDREN {
            texts.push(text.clone()?)?;
        }
        let digests = Children::alike(alloc, digest(&[]))?;
        Ok(Part { texts, digests })
    }

    /// The text of a page.
    pub fn page(&self, child: usize) -> &[u8]
        requires { child < CHILDREN }
        ensures { result.now ≡ slice_index_or self.now child [] }
    {
        self.texts[child].as_slice()
    }

    /// The digests of the pages.
    pub fn digests(&self) -> &[Digest; CHILDREN]
        ensures { result.now ≡ map sha256 self.now }
    {
        self.digests.as_array()
    }

    /// The digest of the part.
    pub fn digest(&self) -> Digest
        ensures { result ≡ part_digest self.now }
    {
        self.digests.digest()
    }

    /// Replaces the text of a page, and hashes it, or only what the page's text doesn't begin it with. An error leaves
    /// the part as it was.
    pub fn set(&mut self, child: usize, text: Vec<u8>) -> Result<(), NoMemory>
        requires { child < CHILDREN }
        ensures ok { OnOk result (self.new ≡ slice_set self.old child text.items) }
        ensures err { OnErr result (self.new ≡ self.old) }
    {
        let text = Text::after(&self.texts[child], text);
        let digest = text.digest();
        self.texts[child] = Arc::new(*self.texts.allocator(), text)?;
        self.digests.set(child, digest);
        Ok(())
    }
}

// The copy shares the texts.
impl Clone for Part {
    ghost is_clone = { λ p q. q ≡ p };

    fn clone(&self) -> Result<Part, AllocError> {
        let texts = self.texts.clone()?;
        let digests = self.digests.clone()?;
        Ok(Part { texts, digests })
    }
}
