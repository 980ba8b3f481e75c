//! Parts that are not taken, and why: the fault is the first one that applies.

use crate::trees::{At, ROOT, answer, begun, completes, place, takes, tree_of};
use partition_tree::{CHILDREN, Tree};
use state_transfer::{PartFault, Place, Transfer};
use std::alloc::Global;
use std::test::Fail;
use terms::{Digest, Level, NoMemory, Number};

static TO_PAGE_5: [At; 2] = [ROOT, (Level::Inner, 0)];

// Number, index and text of a page, and why it is refused when page 5 of state 2, with the text `text`, is asked for.
static PAGES: [(u64, u16, &[u8], PartFault); 7] = [
    (2, 5, b"texx", PartFault::WrongDigest),
    (2, 5, b"", PartFault::WrongDigest),
    (3, 5, b"text", PartFault::NotAsked),
    (1, 5, b"text", PartFault::NotAsked),
    (2, 6, b"text", PartFault::NotAsked),
    (2, 1029, b"text", PartFault::NotAsked),
    (3, 6, b"texx", PartFault::NotAsked),
];

// Whether these places are taken, and this one is asked for after them.
fn comes_to(
    transfer: &mut Transfer,
    tree: &Tree,
    places: &[At],
    asked: Place,
) -> Result<bool, NoMemory> {
    Ok(takes(transfer, tree, places)? && transfer.next_fetch() == Some(asked))
}

fn refuses_each_page(transfer: &mut Transfer) -> bool {
    for &(number, index, text, fault) in &PAGES {
        if transfer.on_page(Number(number), index, text).err() != Some(fault) {
            return false;
        }
    }
    true
}

// Whether each page is refused, and nothing was changed by that.
fn stays_at_page_5(transfer: &mut Transfer) -> bool {
    let own = transfer.pages().root();
    refuses_each_page(transfer)
        && transfer.asked() == place((Level::Page, 5))
        && transfer.pages().root() == own
}

fn refuses_at_page_5(transfer: &mut Transfer, tree: &Tree) -> Result<bool, NoMemory> {
    if !comes_to(transfer, tree, &TO_PAGE_5, place((Level::Page, 5)))?
        || !stays_at_page_5(transfer)
    {
        return Ok(false);
    }
    completes(transfer, tree, &[(Level::Page, 5)])
}

fn refuses_pages(alloc: Global) -> Result<bool, NoMemory> {
    let (tree, mut transfer) = begun(alloc, 2, &[(5, b"text")], &[])?;
    refuses_at_page_5(&mut transfer, &tree)
}

#[test]
fn pages_are_refused(rt: HostRuntime) -> Result<(), Fail> {
    assert!(rt; refuses_pages(rt.alloc())?);
    Ok(())
}

// Number and place of digests, and why they are refused when the digests of the root of state 2 are asked for. The
// digests differ from those of the root's children in one bit.
static DIGESTS: [(u64, At, PartFault); 6] = [
    (2, ROOT, PartFault::WrongDigest),
    (3, ROOT, PartFault::NotAsked),
    (1, ROOT, PartFault::NotAsked),
    (2, (Level::Root, 1), PartFault::NotAsked),
    (2, (Level::Inner, 0), PartFault::NotAsked),
    (2, (Level::Page, 0), PartFault::NotAsked),
];

fn refuses_changed(transfer: &mut Transfer, tree: &Tree) -> bool {
    let mut digests = *tree.children(Level::Root, 0);
    digests[31][31] ^= 1;
    for &(number, at, fault) in &DIGESTS {
        if transfer.on_meta(Number(number), place(at), &digests) != Err(fault) {
            return false;
        }
    }
    true
}

fn refuses_digests(alloc: Global) -> Result<bool, NoMemory> {
    let (tree, mut transfer) = begun(alloc, 2, &[(5, b"text")], &[])?;
    let places = [ROOT, (Level::Inner, 0), (Level::Page, 5)];
    Ok(refuses_changed(&mut transfer, &tree) && completes(&mut transfer, &tree, &places)?)
}

#[test]
fn digests_are_refused(rt: HostRuntime) -> Result<(), Fail> {
    assert!(rt; refuses_digests(rt.alloc())?);
    Ok(())
}

fn are_wrong_at_part_1(transfer: &mut Transfer, digests: &[Digest; CHILDREN]) -> bool {
    let asked = place((Level::Inner, 1));
    transfer.on_meta(Number(2), asked, digests) == Err(PartFault::WrongDigest)
}

// Part 1 is asked for. Digests of part 0 are wrong there, and so are those of part 1 of another state.
fn refuses_at_part_1(transfer: &mut Transfer, tree: &Tree, other: &Tree) -> Result<bool, NoMemory> {
    Ok(
        comes_to(transfer, tree, &[ROOT], place((Level::Inner, 1)))?
            && are_wrong_at_part_1(transfer, tree.children(Level::Inner, 0))
            && are_wrong_at_part_1(transfer, other.children(Level::Inner, 1))
            && answer(transfer, tree, 2).is_ok(),
    )
}

fn refuses_other_parts(alloc: Global) -> Result<bool, NoMemory> {
    let other = tree_of(alloc, &[(32, b"lie")])?;
    let (tree, mut transfer) = begun(alloc, 2, &[(32, b"text")], &[])?;
    refuses_at_part_1(&mut transfer, &tree, &other)
}

#[test]
fn digests_of_other_parts_are_refused(rt: HostRuntime) -> Result<(), Fail> {
    assert!(rt; refuses_other_parts(rt.alloc())?);
    Ok(())
}

// The text of page 5 is that of 32 digests, which have its digest. A page has no children.
fn refuses_digests_at_page_5(transfer: &mut Transfer, tree: &Tree) -> Result<bool, NoMemory> {
    let digests: [Digest; CHILDREN] = [[7; 32]; CHILDREN];
    let asked = place((Level::Page, 5));
    Ok(
        comes_to(transfer, tree, &TO_PAGE_5, asked)?
            && transfer.on_meta(Number(2), asked, &digests) == Err(PartFault::NotAsked)
            && completes(transfer, tree, &[(Level::Page, 5)])?,
    )
}

fn refuses_digests_for_a_page(alloc: Global) -> Result<bool, NoMemory> {
    let (tree, mut transfer) = begun(alloc, 2, &[(5, &[7; 1024])], &[])?;
    refuses_digests_at_page_5(&mut transfer, &tree)
}

#[test]
fn digests_for_a_page_are_refused(rt: HostRuntime) -> Result<(), Fail> {
    assert!(rt; refuses_digests_for_a_page(rt.alloc())?);
    Ok(())
}

fn are_late(transfer: &mut Transfer, digests: &[Digest; CHILDREN]) -> bool {
    transfer.on_meta(Number(2), place(ROOT), digests) == Err(PartFault::NotAsked)
}

// Whether the digests of the root's children are refused after another place was asked for, and those of the earlier
// state after a newer one is wanted.
fn refuses_behind_the_root(transfer: &mut Transfer, tree: &Tree) -> Result<bool, NoMemory> {
    if !takes(transfer, tree, &[ROOT])? || transfer.next_fetch().is_none() {
        return Ok(false);
    }
    let digests = tree.children(Level::Root, 0);
    let is_late = are_late(transfer, digests);
    transfer.move_to(Number(4), tree.root());
    Ok(
        is_late
            && are_late(transfer, digests)
            && transfer.on_meta(Number(4), place(ROOT), digests).is_ok(),
    )
}

fn refuses_late_digests(alloc: Global) -> Result<bool, NoMemory> {
    let (tree, mut transfer) = begun(alloc, 2, &[(5, b"text")], &[])?;
    refuses_behind_the_root(&mut transfer, &tree)
}

#[test]
fn late_digests_are_refused(rt: HostRuntime) -> Result<(), Fail> {
    assert!(rt; refuses_late_digests(rt.alloc())?);
    Ok(())
}

static TEXTS: [(PartFault, &str); 3] = [
    (PartFault::NotAsked, "the part was not asked for"),
    (PartFault::WrongDigest, "the part has another digest"),
    (PartFault::NoMemory, "out of memory"),
];

#[test]
fn refusals_have_texts(rt: HostRuntime) -> Result<(), Fail> {
    for &(fault, text) in &TEXTS {
        let written = format!(in rt.alloc(); "{fault}")?;
        assert!(rt; written.as_str() == text);
    }
    Ok(())
}
