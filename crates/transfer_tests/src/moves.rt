//! Newer states, own pages that change meanwhile, and pages that are given back.

use crate::trees::{At, ROOT, Texts, begun, completes, place, put, takes, tree_of};
use partition_tree::Tree;
use state_transfer::{PartFault, Replaced, Transfer};
use std::alloc::Global;
use std::test::Fail;
use terms::{Level, NoMemory, Number};

static OLD: Texts<'static> = &[(0, b"a"), (1, b"a"), (256, b"a"), (512, b"a")];

// The places taken before the newer state comes, the texts that this state sets, and the places asked for then.
type Row<'a> = (&'a [At], Texts<'a>, &'a [At]);

static ROWS: [Row<'static>; 4] = [
    // Fetched pages serve on, also if their part has another digest now.
    (
        &[ROOT, (Level::Inner, 0), (Level::Page, 0), (Level::Page, 1)],
        &[(2, b"b"), (512, b"b")],
        &[
            ROOT,
            (Level::Inner, 0),
            (Level::Page, 2),
            (Level::Inner, 8),
            (Level::Page, 256),
            (Level::Inner, 16),
            (Level::Page, 512),
        ],
    ),
    // Fetched digests serve on if their part has the same digest.
    (
        &[ROOT, (Level::Inner, 0)],
        &[(512, b"b")],
        &[
            ROOT,
            (Level::Page, 0),
            (Level::Page, 1),
            (Level::Inner, 8),
            (Level::Page, 256),
            (Level::Inner, 16),
            (Level::Page, 512),
        ],
    ),
    // A fetched page is fetched again if it has another text now.
    (
        &[ROOT, (Level::Inner, 0), (Level::Page, 0), (Level::Page, 1)],
        &[(0, b"b"), (256, b""), (512, b"")],
        &[ROOT, (Level::Inner, 0), (Level::Page, 0)],
    ),
    // Nothing was fetched yet.
    (
        &[],
        &[(0, b""), (1, b""), (256, b"")],
        &[ROOT, (Level::Inner, 16), (Level::Page, 512)],
    ),
];

// Whether the transfer takes these places before the newer state comes, and then goes on with the others.
fn is_overtaken(
    transfer: &mut Transfer,
    tree: &mut Tree,
    (before, texts, after): Row<'_>,
) -> Result<bool, NoMemory> {
    if !takes(transfer, tree, before)? {
        return Ok(false);
    }
    put(tree, texts)?;
    transfer.move_to(Number(8), tree.root());
    Ok(
        transfer.number() == Number(8)
            && transfer.root() == tree.root()
            && transfer.asked() == place(ROOT)
            && completes(transfer, tree, after)?,
    )
}

fn goes_on_with(row: Row<'_>, alloc: Global) -> Result<bool, NoMemory> {
    let (mut tree, mut transfer) = begun(alloc, 6, OLD, &[])?;
    is_overtaken(&mut transfer, &mut tree, row)
}

#[test]
fn a_newer_state_overtakes(rt: HostRuntime) -> Result<(), Fail> {
    for &row in &ROWS {
        assert!(rt; goes_on_with(row, rt.alloc())?);
    }
    Ok(())
}

// Page 0 is fetched when the own state changes.
fn rests_on(transfer: &mut Transfer, tree: &Tree, own: &Tree) -> Result<bool, NoMemory> {
    if !takes(transfer, tree, &[ROOT, (Level::Inner, 0), (Level::Page, 0)])? {
        return Ok(false);
    }
    transfer.rest_on(own)?;
    Ok(
        transfer.pages().page(0) == b"new".as_slice()
            && completes(transfer, tree, &[(Level::Inner, 2), (Level::Page, 80)])?,
    )
}

// Page 40 gets the wanted text, 80 loses it, and 0 has another one.
fn rests(alloc: Global) -> Result<bool, NoMemory> {
    let own = tree_of(alloc, &[(0, b"own"), (40, b"new")])?;
    let wanted: Texts<'_> = &[(0, b"new"), (40, b"new"), (80, b"new")];
    let (tree, mut transfer) = begun(alloc, 4, wanted, &[(80, b"new")])?;
    rests_on(&mut transfer, &tree, &own)
}

#[test]
fn the_own_state_goes_on(rt: HostRuntime) -> Result<(), Fail> {
    assert!(rt; rests(rt.alloc())?);
    Ok(())
}

// Whether the page is taken that was replaced; it is given back then.
fn is_taken(transfer: &mut Transfer, tree: &Tree, replaced: Replaced) -> bool {
    let is_taken = transfer.pages().page(3) == tree.page(3);
    transfer.put_back(replaced);
    is_taken
}

// Takes page 3, which is asked for next, and gives it back.
fn takes_and_gives_back(transfer: &mut Transfer, tree: &Tree) -> Result<bool, NoMemory> {
    let asked = place((Level::Page, 3));
    let before = transfer.pages().root();
    if transfer.next_fetch() != Some(asked) {
        return Ok(false);
    }
    let is_taken = match transfer.on_page(transfer.number(), 3, tree.page(3)) {
        Ok(replaced) => is_taken(transfer, tree, replaced),
        Err(PartFault::NoMemory) => return Err(NoMemory),
        Err(_) => false,
    };
    Ok(is_taken && transfer.pages().root() == before && transfer.asked() == asked)
}

// The page has the own text again, and is asked for again.
fn takes_again(transfer: &mut Transfer, tree: &Tree) -> Result<bool, NoMemory> {
    Ok(
        takes(transfer, tree, &[ROOT, (Level::Inner, 0)])?
            && takes_and_gives_back(transfer, tree)?
            && transfer.pages().page(3) == b"own".as_slice()
            && completes(transfer, tree, &[(Level::Page, 3)])?,
    )
}

fn gives_back(alloc: Global) -> Result<bool, NoMemory> {
    let (tree, mut transfer) = begun(alloc, 2, &[(3, b"new")], &[(3, b"own")])?;
    takes_again(&mut transfer, &tree)
}

#[test]
fn a_page_is_given_back(rt: HostRuntime) -> Result<(), Fail> {
    assert!(rt; gives_back(rt.alloc())?);
    Ok(())
}

// Whether page 3 of a newer state is taken and given back, after that of the older state was fetched or not.
fn gives_newer_back(
    transfer: &mut Transfer,
    tree: &mut Tree,
    fetched: bool,
) -> Result<bool, NoMemory> {
    let places = [ROOT, (Level::Inner, 0), (Level::Page, 3)];
    if fetched && !takes(transfer, tree, &places)? {
        return Ok(false);
    }
    put(tree, &[(3, b"new")])?;
    transfer.move_to(Number(4), tree.root());
    Ok(takes(transfer, tree, &places[..2])? && takes_and_gives_back(transfer, tree)?)
}

// After a page was given back that was not fetched before, the own text is held again, whatever it is then. If
// another text of the page had been fetched, that stays.
fn holds_behind(
    transfer: &mut Transfer,
    tree: &mut Tree,
    own: &Tree,
    fetched: bool,
) -> Result<bool, NoMemory> {
    let is_back = gives_newer_back(transfer, tree, fetched)?;
    transfer.rest_on(own)?;
    let held: &[u8] = if fetched { b"old" } else { b"own" };
    Ok(is_back && transfer.pages().page(3) == held)
}

fn rests_behind(alloc: Global, fetched: bool) -> Result<bool, NoMemory> {
    let own = tree_of(alloc, &[(3, b"own")])?;
    let (mut tree, mut transfer) = begun(alloc, 2, &[(3, b"old")], &[])?;
    holds_behind(&mut transfer, &mut tree, &own, fetched)
}

#[test]
fn the_own_state_goes_on_behind_a_page_given_back(rt: HostRuntime) -> Result<(), Fail> {
    assert!(rt; rests_behind(rt.alloc(), false)?);
    assert!(rt; rests_behind(rt.alloc(), true)?);
    Ok(())
}
