//! Pages that are set at once, and the shared pages that trees and snapshots keep, with memory refused.

ghost use Rattle.std.specs.Prelude.{◌<◌};

use crate::partitions::{new_tree, snapshot_of};
use partition_tree::{Page, Snapshot, Tree};
use std::alloc::{AllocError, Global};
use std::test::Fail;
use terms::{Digest, Level, NoMemory};

// The digests were computed by Python's hashlib, where pages = [b''] * 1024, and then for SEVERAL_ROOT and
// SEVERAL_PART, which is parts[0], with the pages of `several` set:
//   H = lambda text: hashlib.sha256(text).digest()
//   parts = [H(b''.join(H(page) for page in pages[32 * j:32 * j + 32])) for j in range(32)]
//   root = H(b''.join(parts))
// For OTHER_ROOT then pages[1] = b'other' alone, and for LATER_ROOT pages[1] = b'2', pages[512] = b'later'.
const SEVERAL_ROOT: Digest = [
    0x42, 0x75, 0xb7, 0x89, 0x6f, 0xd2, 0xde, 0x6e, 0x25, 0x3b, 0xe8, 0xa3, 0x51, 0x3b, 0x5a, 0x3c,
    0x66, 0xae, 0x25, 0xe1, 0x15, 0x02, 0xcc, 0x1c, 0xdb, 0xb0, 0x55, 0x1a, 0xfe, 0x26, 0xe5, 0x3a,
];

const SEVERAL_PART: Digest = [
    0xd8, 0x44, 0x46, 0xd9, 0x58, 0xe3, 0x2e, 0x01, 0x1d, 0x57, 0xff, 0x58, 0xb9, 0x9b, 0x8c, 0x81,
    0xe4, 0x2e, 0x20, 0xfe, 0xd2, 0xbc, 0x46, 0x8f, 0xab, 0xd3, 0x19, 0xc7, 0x20, 0xee, 0xc7, 0x4c,
];

const ABC_PAGE: Digest = [
    0xba, 0x78, 0x16, 0xbf, 0x8f, 0x01, 0xcf, 0xea, 0x41, 0x41, 0x40, 0xde, 0x5d, 0xae, 0x22, 0x23,
    0xb0, 0x03, 0x61, 0xa3, 0x96, 0x17, 0x7a, 0x9c, 0xb4, 0x10, 0xff, 0x61, 0xf2, 0x00, 0x15, 0xad,
];

const OTHER_ROOT: Digest = [
    0x6f, 0xba, 0xea, 0x97, 0xa0, 0x92, 0x20, 0x93, 0xa6, 0x2e, 0xdb, 0x81, 0x2e, 0xea, 0xb0, 0xf7,
    0xe3, 0x9c, 0x21, 0xb4, 0xbc, 0xdc, 0x67, 0x82, 0xca, 0x0f, 0x8c, 0xeb, 0xcb, 0x48, 0x69, 0xcc,
];

const LATER_ROOT: Digest = [
    0xe8, 0xc9, 0xfa, 0xbb, 0xdf, 0x9a, 0x98, 0x42, 0x75, 0x53, 0xdf, 0x29, 0x3f, 0xa9, 0xf9, 0x71,
    0xde, 0x07, 0x4a, 0x41, 0xf3, 0x75, 0x69, 0xcb, 0xa9, 0x28, 0xcb, 0xd6, 0x73, 0x77, 0x72, 0xf3,
];

fn page(alloc: Global, index: usize, text: &[u8]) -> Result<Page, AllocError>
    requires { index < 1024 }
{
    let text = Vec::from_slice(alloc, text)?;
    Ok(Page { index, text })
}

fn several(alloc: Global) -> Result<Vec<Page>, AllocError> {
    let mut pages = Vec::with_capacity(alloc, 4)?;
    pages.push(page(alloc, 0, b"one")?)?;
    pages.push(page(alloc, 1, b"two")?)?;
    pages.push(page(alloc, 300, b"abc")?)?;
    pages.push(page(alloc, 1023, b"last")?)?;
    Ok(pages)
}

fn later(alloc: Global) -> Result<Vec<Page>, AllocError> {
    let mut pages = Vec::with_capacity(alloc, 3)?;
    pages.push(page(alloc, 1, b"2")?)?;
    pages.push(page(alloc, 300, b"abc")?)?;
    pages.push(page(alloc, 512, b"later")?)?;
    Ok(pages)
}

// Each sets pages, and answers whether the tree then has the root that these give.
fn sets_several(tree: &mut Tree, alloc: Global) -> Result<bool, NoMemory> {
    tree.set_pages(several(alloc)?)?;
    Ok(tree.root() == SEVERAL_ROOT)
}

fn sets_later(tree: &mut Tree, alloc: Global) -> Result<bool, NoMemory> {
    tree.set_pages(later(alloc)?)?;
    Ok(tree.root() == LATER_ROOT)
}

// Over several pages.
fn sets_other(tree: &mut Tree) -> Result<bool, NoMemory> {
    tree.set_page(1, b"other")?;
    Ok(tree.root() == OTHER_ROOT)
}

fn has_several(tree: &Tree) -> bool {
    tree.page(1) == b"two".as_slice()
        && tree.page(1023) == b"last".as_slice()
        && tree.children(Level::Root, 0)[0] == SEVERAL_PART
        && tree.children(Level::Inner, 9)[12] == ABC_PAGE
}

fn sets_in_turn(tree: &mut Tree, alloc: Global) -> Result<bool, NoMemory> {
    Ok(
        sets_several(tree, alloc)?
            && has_several(tree)
            && sets_several(tree, alloc)?
            && sets_later(tree, alloc)?,
    )
}

#[test]
fn several_pages_at_once(rt: HostRuntime) -> Result<(), Fail> {
    let mut tree = Tree::new(rt.alloc())?;
    assert!(rt; sets_in_turn(&mut tree, rt.alloc())?);
    Ok(())
}

// Several pages, and page 1 once more.
fn with_other(alloc: Global) -> Result<Vec<Page>, AllocError> {
    let mut pages = several(alloc)?;
    pages.push(page(alloc, 1, b"other")?)?;
    Ok(pages)
}

fn sets_twice(tree: &mut Tree, alloc: Global) -> Result<bool, NoMemory> {
    tree.set_pages(with_other(alloc)?)?;
    Ok(tree.page(1) == b"other".as_slice() && tree.root() == OTHER_ROOT)
}

fn sets_none(tree: &mut Tree, alloc: Global) -> Result<bool, NoMemory> {
    tree.set_pages(Vec::new(alloc))?;
    Ok(tree.root() == OTHER_ROOT)
}

#[test]
fn a_page_set_twice_and_none(rt: HostRuntime) -> Result<(), Fail> {
    let mut tree = Tree::new(rt.alloc())?;
    assert!(rt; sets_twice(&mut tree, rt.alloc())?);
    assert!(rt; sets_none(&mut tree, rt.alloc())?);
    Ok(())
}

// A snapshot of several pages. The tree's pages are then set again.
fn shared_snapshot(tree: &mut Tree, alloc: Global) -> Result<Snapshot, NoMemory> {
    tree.set_pages(several(alloc)?)?;
    let snapshot = tree.snapshot()?;
    tree.set_pages(later(alloc)?)?;
    tree.set_page(0, b"")?;
    Ok(snapshot)
}

fn keeps_several(snapshot: &Snapshot) -> bool {
    snapshot.root() == SEVERAL_ROOT
        && snapshot.page(0) == b"one".as_slice()
        && snapshot.page(1) == b"two".as_slice()
        && snapshot.page(512).is_empty()
        && snapshot.children(Level::Root, 0)[0] == SEVERAL_PART
}

#[test]
fn a_snapshot_keeps_what_it_shared(rt: HostRuntime) -> Result<(), Fail> {
    let mut tree = Tree::new(rt.alloc())?;
    let snapshot = shared_snapshot(&mut tree, rt.alloc())?;
    assert!(rt; keeps_several(&snapshot));
    drop(tree);
    assert!(rt; snapshot.page(300) == b"abc".as_slice());
    Ok(())
}

// Whether a tree of the snapshot and a copy of it are changed apart, and the snapshot and its tree stay as they were.
fn are_apart(tree: &Tree, snapshot: &Snapshot, alloc: Global) -> Result<bool, NoMemory> {
    let mut held = snapshot.tree()?;
    let mut copy = held.copy()?;
    Ok(change_apart(&mut held, &mut copy, alloc)? && are_as_before(tree, snapshot))
}

fn change_apart(held: &mut Tree, copy: &mut Tree, alloc: Global) -> Result<bool, NoMemory> {
    Ok(
        sets_other(held)?
            && sets_later(copy, alloc)?
            && held.root() == OTHER_ROOT
            && held.page(300) == b"abc".as_slice(),
    )
}

fn are_as_before(tree: &Tree, snapshot: &Snapshot) -> bool {
    snapshot.root() == SEVERAL_ROOT && tree.root() == SEVERAL_ROOT
}

fn several_with_snapshot(tree: &mut Tree, alloc: Global) -> Result<Snapshot, NoMemory> {
    tree.set_pages(several(alloc)?)?;
    tree.snapshot()
}

#[test]
fn trees_of_one_snapshot_are_apart(rt: HostRuntime) -> Result<(), Fail> {
    let mut tree = Tree::new(rt.alloc())?;
    let snapshot = several_with_snapshot(&mut tree, rt.alloc())?;
    assert!(rt; are_apart(&tree, &snapshot, rt.alloc())?);
    Ok(())
}

// The pages of the second try if memory ran out for those of the first one.
fn changes(alloc: Global) -> Result<Vec<Page>, AllocError> {
    match several(alloc) {
        Ok(pages) => Ok(pages),
        Err(_) => several(alloc),
    }
}

// Whether several pages are set, at the second try if memory ran out at the first one, which changed nothing.
fn sets_or_stays(tree: &mut Tree, alloc: Global, empty: &Snapshot) -> Result<bool, NoMemory> {
    if tree.set_pages(changes(alloc)?).is_ok() {
        return Ok(tree.root() == SEVERAL_ROOT);
    }
    let is_as_before = is_empty_as(tree, empty);
    Ok(sets_several(tree, alloc)? && is_as_before)
}

fn is_empty_as(tree: &Tree, empty: &Snapshot) -> bool {
    tree.root() == empty.root() && tree.page(0).is_empty() && tree.page(300).is_empty()
}

// The same of page 1, over several pages.
fn sets_other_or_stays(tree: &mut Tree) -> Result<bool, NoMemory> {
    if tree.set_page(1, b"other").is_ok() {
        return Ok(tree.root() == OTHER_ROOT);
    }
    let is_as_before = tree.root() == SEVERAL_ROOT && tree.page(1) == b"two".as_slice();
    Ok(sets_other(tree)? && is_as_before)
}

// The snapshot's tree, at the second try if memory ran out at the first one.
fn tree_of(snapshot: &Snapshot) -> Result<Tree, NoMemory> {
    match snapshot.tree() {
        Ok(tree) => Ok(tree),
        Err(NoMemory) => snapshot.tree(),
    }
}

// A tree of several pages and one of their snapshot get another page each, and the snapshot keeps its own.
fn shares_pages(tree: &mut Tree) -> Result<bool, NoMemory> {
    let snapshot = snapshot_of(tree)?;
    Ok(sets_other_or_stays(tree)? && keeps_shared(&snapshot)?)
}

fn keeps_shared(snapshot: &Snapshot) -> Result<bool, NoMemory> {
    let mut held = tree_of(snapshot)?;
    Ok(
        held.root() == SEVERAL_ROOT
            && sets_other_or_stays(&mut held)?
            && snapshot.page(1) == b"two".as_slice(),
    )
}

// Passes whichever growth is refused, as by `tools/growths`, since the second try is granted.
#[test]
fn refusals_leave_shared_pages(rt: HostRuntime) -> Result<(), Fail> {
    let mut tree = new_tree(rt.alloc())?;
    let empty = snapshot_of(&tree)?;
    assert!(rt; sets_or_stays(&mut tree, rt.alloc(), &empty)?);
    assert!(rt; shares_pages(&mut tree)?);
    assert!(rt; empty.page(300).is_empty());
    Ok(())
}
