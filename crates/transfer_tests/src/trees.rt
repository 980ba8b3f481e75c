//! Trees of pages, and the parts that a replica which holds such a tree answers with.

use partition_tree::{CHILDREN, PAGES, Tree};
use state_transfer::{PartFault, Place, Transfer};
use std::alloc::Global;
use terms::{Level, NoMemory, Number};

/// Pages, 0 to 1,023, and their texts.
pub type Texts<'a> = &'a [(usize, &'a [u8])];

/// A place, as its level and index.
pub type At = (Level, u16);

pub const ROOT: At = (Level::Root, 0);

/// Gives pages these texts.
pub fn put(tree: &mut Tree, texts: Texts<'_>) -> Result<(), NoMemory> {
    for (page, text) in texts {
        if *page < PAGES {
            tree.set_page(*page, text)?;
        }
    }
    Ok(())
}

/// A tree whose pages have these texts, and the others none.
pub fn tree_of(alloc: Global, texts: Texts<'_>) -> Result<Tree, NoMemory> {
    let mut tree = Tree::new(alloc)?;
    put(&mut tree, texts)?;
    Ok(tree)
}

/// A transfer of this tree's state, with this number, to a replica with the own texts.
pub fn start(
    alloc: Global,
    number: u64,
    wanted: &Tree,
    own: Texts<'_>,
) -> Result<Transfer, NoMemory> {
    let own = tree_of(alloc, own)?;
    Transfer::start(alloc, Number(number), wanted.root(), &own)
}

/// A tree whose pages have these texts, and a transfer of its state to a replica with the own ones. Who owns both hands
/// them on, since each further way out of a function drops both.
pub fn begun(
    alloc: Global,
    number: u64,
    wanted: Texts<'_>,
    own: Texts<'_>,
) -> Result<(Tree, Transfer), NoMemory> {
    let tree = tree_of(alloc, wanted)?;
    let transfer = start(alloc, number, &tree, own)?;
    Ok((tree, transfer))
}

pub fn place((level, index): At) -> Place {
    Place { level, index }
}

/// Answers with the part of the tree that was asked for last, for the state of this number.
pub fn answer(transfer: &mut Transfer, tree: &Tree, number: u64) -> Result<(), PartFault> {
    let number = Number(number);
    let place = transfer.asked();
    let index = usize::from(place.index);
    match place.level {
        Level::Root => transfer.on_meta(number, place, tree.children(Level::Root, 0)),
        Level::Inner if index < CHILDREN => {
            transfer.on_meta(number, place, tree.children(Level::Inner, index))
        }
        Level::Page if index < PAGES => {
            let _replaced = transfer.on_page(number, place.index, tree.page(index))?;
            Ok(())
        }
        _ => Err(PartFault::NotAsked),
    }
}

/// Whether these places are asked for and taken, one after another. NoMemory if memory runs out.
pub fn takes(transfer: &mut Transfer, tree: &Tree, places: &[At]) -> Result<bool, NoMemory> {
    let number = transfer.number().0;
    for at in places {
        if transfer.next_fetch() != Some(place(*at)) {
            return Ok(false);
        }
        match answer(transfer, tree, number) {
            Ok(()) => {}
            Err(PartFault::NoMemory) => return Err(NoMemory),
            Err(_) => return Ok(false),
        }
    }
    Ok(true)
}

/// And then none, since the tree's pages are held.
pub fn completes(transfer: &mut Transfer, tree: &Tree, places: &[At]) -> Result<bool, NoMemory> {
    Ok(
        takes(transfer, tree, places)?
            && transfer.next_fetch().is_none()
            && transfer.pages().root() == tree.root(),
    )
}
