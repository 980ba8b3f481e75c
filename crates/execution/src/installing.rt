//! A state, read from its pages.

ghost use Rattle.std.specs.Prelude.{◌≡◌, ◌↔◌, ℕ, ◌+◌, ◌≤◌, IfOk, IsTrue};
ghost use Rattle.space.specs.Pages.{texts_of};
ghost use Rattle.reply_cache.specs.Replies.{AreReplies, seen_of};
ghost use Rattle.execution.specs.Installing.{AreNoStates, AreTexts, HasPagesAt, NoneBehind};
ghost use Rattle.execution.specs.Running.{state_with};

use partition_tree::{PAGES, Tree};
use reply_cache::ReplyCache;
use space::{PAGES as TUPLE_PAGES, Space};
use std::alloc::Global;
use terms::{ClientId, MAX_CLIENTS, Number};
use tuple_codec::Bad;

/// The page of the header, after those of tuples and of replies.
pub(crate) const HEADER: usize = TUPLE_PAGES + MAX_CLIENTS;

/// The space and the replies of the state with this number and these pages.
///
/// # Errors
///
/// Malformed if no state of that number has these pages. NoMemory if memory runs out before that is seen.
pub fn read_pages(alloc: Global, number: Number, pages: &Tree) -> Result<(Space, ReplyCache), Bad>
    ensures found { IfOk result
        (λ x. HasPagesAt number.0 pages.now (state_with number.0 x.0 x.1)) }
    ensures malformed { (result ≡ Err Bad.Malformed) → AreNoStates number.0 pages.now }
{
    if !are_none_behind(pages) {
        return Err(Bad::Malformed);
    }
    let tuples = texts_from(pages, 0);
    let (space, batches) = Space::from_pages(alloc, &tuples, pages.page(HEADER))?;
    if batches != number.0 {
        return Err(Bad::Malformed);
    }
    let replies = ReplyCache::from_pages(alloc, &texts_from(pages, TUPLE_PAGES))?;
    Ok((space, replies))
}

/// Whether no client's timestamp in the new replies is below that in the old ones. Takes no memory.
pub fn none_falls(old: &ReplyCache, new: &ReplyCache) -> bool
    requires { AreReplies old.now }
    ensures { IsTrue result ↔ ((client : ℕ) → seen_of old.now client ≤ seen_of new.now client) }
{
    for number in 0..MAX_CLIENTS as u16 {
        let client = ClientId { number };
        if new.seen(client) < old.seen(client) {
            return false;
        }
    }
    true
}

// Whether the pages after the header have no text.
fn are_none_behind(pages: &Tree) -> bool
    ensures { IsTrue result ↔ NoneBehind pages.now }
{
    for page in HEADER + 1..PAGES {
        if !pages.page(page).is_empty() {
            return false;
        }
    }
    true
}

// The texts of so many pages as there are clients, from the first on.
fn texts_from(pages: &Tree, first: usize) -> [&[u8]; MAX_CLIENTS]
    requires { first ≤ HEADER }
    ensures { AreTexts pages.now first (texts_of result) }
{
    let mut texts: [&[u8]; MAX_CLIENTS] = [&[]; MAX_CLIENTS];
    for i in 0..MAX_CLIENTS {
        texts[i] = pages.page(first + i);
    }
    texts
}
