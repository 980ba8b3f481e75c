//! The pages of the executed state. A tree of them is renewed page by page, if they may have changed.

ghost use Rattle.std.specs.Prelude.{◌≡◌, ◌<◌, [], slice_index_or, IfOk, OnOk};
ghost use Rattle.space.specs.Watching.{IsWrittenAs};
ghost use Rattle.protocol.specs.Replica.State.{page_text, pages_of};
ghost use Rattle.execution.specs.Running.{state_with};
ghost use Rattle.execution.specs.Touching.{is_page_touched, AreRenewed, RenewsPages, HasPages};

use crate::installing::HEADER;
use crate::replies::WatchedReplies;
use partition_tree::{Page, Tree};
use reply_cache::ReplyCache;
use space::{PAGES as TUPLE_PAGES, Watched};
use std::alloc::Global;
use terms::{ClientId, NoMemory, Number};

/// The pages of tuples, those of replies, and the header may have a text.
const TEXTS: usize = HEADER + 1;

/// Gives a tree the pages of the state that may differ. An `Err` changes nothing.
pub fn renew(
    alloc: Global,
    tree: &mut Tree,
    space: &mut Watched,
    replies: &mut WatchedReplies,
    number: Number,
) -> Result<(), NoMemory>
    requires { HasPages tree.old space.old replies.old }
    ensures ok { OnOk result
        (tree.new ≡ pages_of (state_with number.0 space.old.state replies.old.replies)) }
    ensures space { space.new.state ≡ space.old.state }
    ensures replies { replies.new.replies ≡ replies.old.replies }
    ensures has { HasPages tree.new space.new replies.new }
{
    let pages = touched_pages(alloc, tree, space, replies, number)?;
    tree.set_pages(pages)?;
    space.untouch();
    replies.untouch();
    Ok(())
}

// The pages that may have changed, with their texts.
fn touched_pages(
    alloc: Global,
    tree: &Tree,
    space: &Watched,
    replies: &WatchedReplies,
    number: Number,
) -> Result<Vec<Page>, NoMemory>
    requires { HasPages tree.now space.now replies.now }
    ensures { IfOk result (λ pages. AreRenewed
        (state_with number.0 space.now.state replies.now.replies)
        (is_page_touched space.now replies.now) pages.items TEXTS) }
{
    let mut pages = Vec::new(alloc);
    for index in 0..TEXTS {
        add_page(tree, space, replies, number, index, &mut pages)?;
    }
    Ok(pages)
}

// Adds a page with its text, if it may have changed.
fn add_page(
    tree: &Tree,
    space: &Watched,
    replies: &WatchedReplies,
    number: Number,
    index: usize,
    pages: &mut Vec<Page>,
) -> Result<(), NoMemory>
    requires index { index < TEXTS }
    requires has { HasPages tree.now space.now replies.now }
    ensures { OnOk result (RenewsPages (state_with number.0 space.now.state replies.now.replies)
        (is_page_touched space.now replies.now) index pages.old.items pages.new.items) }
{
    if !is_touched(space, replies, index) {
        return Ok(());
    }
    let alloc = *pages.allocator();
    let text = text_of(alloc, tree, space, replies.replies(), number, index)?;
    pages.push(Page { index, text })?;
    Ok(())
}

// Whether a page may have changed. The header always may.
fn is_touched(space: &Watched, replies: &WatchedReplies, index: usize) -> bool
    ensures { result ≡ is_page_touched space.now replies.now index }
{
    if index < TUPLE_PAGES {
        return space.touched(index);
    }
    if index < HEADER {
        return replies.touched(index - TUPLE_PAGES);
    }
    true
}

// The text of a page, which is written on from that in the tree if it only got longer.
#[tactic(auto, unfolding(protocol::specs::Replica::State::page_text))]
fn text_of(
    alloc: Global,
    tree: &Tree,
    space: &Watched,
    replies: &ReplyCache,
    number: Number,
    index: usize,
) -> Result<Vec<u8>, NoMemory>
    requires index { index < TEXTS }
    requires written { index < TUPLE_PAGES → IsWrittenAs space.now index (slice_index_or tree.now index []) }
    ensures { IfOk result (λ text.
        text.items ≡ page_text (state_with number.0 space.now.state replies.now) index) }
{
    if index < TUPLE_PAGES {
        return space.page_text(index, tree.page(index));
    }
    if index < HEADER {
        let number = (index - TUPLE_PAGES) as u16;
        return replies.page_text(ClientId { number });
    }
    let text = Vec::from_slice(alloc, &space.space().header_text(number.0))?;
    Ok(text)
}
