//! Memory refused, as by `tools/growths`: nothing was changed, and the second try is granted.

use crate::trees::{ROOT, begun, completes, place, takes, tree_of};
use partition_tree::Tree;
use state_transfer::{PartFault, Transfer};
use std::alloc::Global;
use std::test::Fail;
use terms::{Level, NoMemory, Number};

// Takes page 5 of state 2, at the second try if memory was refused at the first one.
fn takes_page(transfer: &mut Transfer, tree: &Tree) -> bool {
    let own = transfer.pages().root();
    match transfer.on_page(Number(2), 5, tree.page(5)) {
        Ok(_) => true,
        Err(PartFault::NoMemory) => {
            transfer.pages().root() == own && transfer.on_page(Number(2), 5, tree.page(5)).is_ok()
        }
        Err(_) => false,
    }
}

// The same of the own pages that the transfer rests on.
fn rests(transfer: &mut Transfer, own: &Tree) -> Result<bool, NoMemory> {
    let before = transfer.pages().root();
    if transfer.rest_on(own).is_ok() {
        return Ok(true);
    }
    let is_as_before = transfer.pages().root() == before;
    transfer.rest_on(own)?;
    Ok(is_as_before)
}

fn completes_with(transfer: &mut Transfer, tree: &Tree, own: &Tree) -> Result<bool, NoMemory> {
    Ok(
        takes(transfer, tree, &[ROOT, (Level::Inner, 0)])?
            && transfer.next_fetch() == Some(place((Level::Page, 5)))
            && takes_page(transfer, tree)
            && rests(transfer, own)?
            && completes(transfer, tree, &[])?,
    )
}

fn goes_on(alloc: Global) -> Result<bool, NoMemory> {
    let own = tree_of(alloc, &[(40, b"text"), (80, b"")])?;
    let (tree, mut transfer) = begun(alloc, 2, &[(5, b"text"), (40, b"text")], &[(80, b"own")])?;
    completes_with(&mut transfer, &tree, &own)
}

#[test]
fn memory_is_refused(rt: HostRuntime) -> Result<(), Fail> {
    if let Ok(is_right) = goes_on(rt.alloc()) {
        assert!(rt; is_right);
    }
    Ok(())
}
