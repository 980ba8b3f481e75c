//! Whole transfers, and the places that they ask for.

use crate::trees::{At, ROOT, Texts, begun, completes, place};
use partition_tree::Tree;
use state_transfer::{Place, Transfer};
use std::alloc::Global;
use std::test::Fail;
use terms::{Level, NoMemory, Number};

// The texts of the state, the own ones, and the places: depth first. Page i is below inner part i / 32.
type Row<'a> = (Texts<'a>, Texts<'a>, &'a [At]);

static ROWS: [Row<'static>; 5] = [
    // Six tuples, a client's reply, and a header, while nothing is held.
    (
        &[
            (0, b"t0"),
            (1, b"t1"),
            (2, b"t2"),
            (3, b"t3"),
            (4, b"t4"),
            (5, b"t5"),
            (256, b"reply"),
            (512, b"header"),
        ],
        &[],
        &[
            ROOT,
            (Level::Inner, 0),
            (Level::Page, 0),
            (Level::Page, 1),
            (Level::Page, 2),
            (Level::Page, 3),
            (Level::Page, 4),
            (Level::Page, 5),
            (Level::Inner, 8),
            (Level::Page, 256),
            (Level::Inner, 16),
            (Level::Page, 512),
        ],
    ),
    // If nothing differs, nothing is asked for.
    (&[(7, b"a"), (300, b"b")], &[(7, b"a"), (300, b"b")], &[]),
    // The first and last pages of inner parts. Pages 0 and 700 are held.
    (
        &[(0, b"a"), (31, b"b"), (32, b"b"), (700, b"a"), (1023, b"b")],
        &[(0, b"a"), (31, b"a"), (700, b"a")],
        &[
            ROOT,
            (Level::Inner, 0),
            (Level::Page, 31),
            (Level::Inner, 1),
            (Level::Page, 32),
            (Level::Inner, 31),
            (Level::Page, 1023),
        ],
    ),
    // A page that has no text in the state.
    (
        &[(40, b"a")],
        &[(40, b"a"), (41, b"b")],
        &[ROOT, (Level::Inner, 1), (Level::Page, 41)],
    ),
    // Two pages that have each other's texts.
    (
        &[(3, b"a"), (4, b"b")],
        &[(3, b"b"), (4, b"a")],
        &[ROOT, (Level::Inner, 0), (Level::Page, 3), (Level::Page, 4)],
    ),
];

fn asks_for((wanted, own, places): Row<'_>, alloc: Global) -> Result<bool, NoMemory> {
    let (tree, mut transfer) = begun(alloc, 6, wanted, own)?;
    completes(&mut transfer, &tree, places)
}

#[test]
fn what_differs_is_asked_for(rt: HostRuntime) -> Result<(), Fail> {
    for &row in &ROWS {
        assert!(rt; asks_for(row, rt.alloc())?);
    }
    Ok(())
}

fn has_nothing_fetched(transfer: &Transfer, tree: &Tree) -> bool {
    transfer.keeps();
    transfer.number() == Number(4)
        && transfer.root() == tree.root()
        && transfer.asked() == Place::root()
        && transfer.pages().page(1).is_empty()
        && transfer.pages().page(2) == b"own".as_slice()
}

fn is_as_started(alloc: Global) -> Result<bool, NoMemory> {
    let (tree, transfer) = begun(alloc, 4, &[(1, b"new")], &[(2, b"own")])?;
    Ok(has_nothing_fetched(&transfer, &tree))
}

#[test]
fn a_new_transfer(rt: HostRuntime) -> Result<(), Fail> {
    assert!(rt; is_as_started(rt.alloc())?);
    Ok(())
}

#[test]
fn places(rt: HostRuntime) {
    assert!(rt; Place::root() == place(ROOT));
    assert!(rt; Place::inner(31) == place((Level::Inner, 31)));
    assert!(rt; Place::page(1023) == place((Level::Page, 1023)));
}
