//! Worked digests, a kept snapshot, and memory refused.

use crate::answers::holds;
use partition_tree::{PAGES, Snapshot, Tree};
use std::alloc::Global;
use terms::{Digest, Level, NoMemory};
use test_bytes::{Verdict, all_hold};

// A page that holds one tuple, of the number 1, with birth number 0.
const FIRST_TEXT: &[u8; 18] = b"\0\0\0\0\0\0\0\0\x01\x01\0\0\0\0\0\0\0\x01";

// The page of a client whose request with timestamp 1 ran in batch 1 and was answered by `done`.
const FIRST_REPLY: &[u8; 17] = b"\0\0\0\0\0\0\0\x01\0\0\0\0\0\0\0\x011";

// The header of a new state, and that after one batch with 1 as the next birth number.
const NEW_HEADER: &[u8; 17] = b"\x01\0\0\0\0\0\0\0\0\0\0\0\0\0\0\0\0";

const FIRST_HEADER: &[u8; 17] = b"\x01\0\0\0\0\0\0\0\x01\0\0\0\0\0\0\0\x01";

// A replica's state has tuples on the pages 0 to 255, last replies on the pages 256 to 511, and its header here.
const HEADER_PAGE: usize = 512;

// The digests were computed by Python's hashlib, where pages = [b''] * 1024, and then those of each test are set:
//   H = lambda text: hashlib.sha256(text).digest()
//   parts = [H(b''.join(H(page) for page in pages[32 * j:32 * j + 32])) for j in range(32)]
//   root = H(b''.join(parts))
// So for NEW_STATE_ROOT pages[512] = b'\x01' + bytes(16), and for FIRST_STATE_ROOT, where one = (1).to_bytes(8, 'big'):
//   pages[0] = bytes(8) + b'\x01\x01' + one
//   pages[256] = one + one + b'1'
//   pages[512] = b'\x01' + one + one
const EMPTY_PAGE: Digest = [
    0xe3, 0xb0, 0xc4, 0x42, 0x98, 0xfc, 0x1c, 0x14, 0x9a, 0xfb, 0xf4, 0xc8, 0x99, 0x6f, 0xb9, 0x24,
    0x27, 0xae, 0x41, 0xe4, 0x64, 0x9b, 0x93, 0x4c, 0xa4, 0x95, 0x99, 0x1b, 0x78, 0x52, 0xb8, 0x55,
];

const EMPTY_ROOT: Digest = [
    0x11, 0xfe, 0x8a, 0x78, 0x81, 0x7f, 0x2e, 0x8d, 0xee, 0x25, 0xfa, 0xff, 0xb1, 0xa8, 0x48, 0xf8,
    0x3d, 0x31, 0x5f, 0x99, 0x9b, 0xb4, 0x5c, 0xdd, 0x74, 0xfa, 0x33, 0x2a, 0xfd, 0x56, 0x30, 0x03,
];

const NEW_STATE_ROOT: Digest = [
    0x2e, 0xc6, 0x7f, 0xea, 0xf3, 0x0f, 0x69, 0x48, 0xc2, 0x4b, 0x35, 0xe1, 0xb1, 0x61, 0x24, 0x9f,
    0x42, 0x19, 0x23, 0x0b, 0xca, 0x9d, 0xc9, 0x31, 0x0a, 0xbf, 0xec, 0xd7, 0x8b, 0xc6, 0xb0, 0xfd,
];

const FIRST_STATE_ROOT: Digest = [
    0x96, 0xd4, 0xc2, 0x45, 0x5c, 0x93, 0xd6, 0xd3, 0xe2, 0x04, 0xab, 0xd1, 0xd3, 0x28, 0xe2, 0x45,
    0x4c, 0x6a, 0x54, 0xca, 0x70, 0x64, 0xd0, 0x84, 0x4c, 0x7c, 0x78, 0xb0, 0x2f, 0x8b, 0x62, 0x99,
];

const FIRST_ROOT: Digest = [
    0x37, 0x26, 0x0e, 0xef, 0xfd, 0x6d, 0x6a, 0x21, 0x31, 0x77, 0xa1, 0x03, 0x99, 0x0c, 0x2f, 0xdf,
    0x1b, 0xf2, 0xdb, 0x15, 0xac, 0x2b, 0x9a, 0x99, 0xbe, 0x7e, 0x50, 0x06, 0x95, 0x7d, 0xcc, 0xdb,
];

const FIRST_PART: Digest = [
    0xcb, 0x74, 0x29, 0x1e, 0x36, 0x3b, 0x46, 0x69, 0xff, 0x6f, 0x51, 0xc5, 0xff, 0xba, 0x8d, 0x35,
    0x37, 0xdd, 0x5d, 0x68, 0xb9, 0x85, 0x7d, 0xab, 0xc5, 0xe7, 0x4f, 0xe4, 0x14, 0xd5, 0x36, 0x69,
];

const FIRST_PAGE: Digest = [
    0x13, 0x46, 0x3f, 0x4b, 0x4e, 0x20, 0xbd, 0x67, 0x3e, 0x6b, 0x29, 0x92, 0xd0, 0x24, 0xfd, 0x19,
    0xbb, 0x9b, 0x1b, 0x68, 0xa4, 0xf2, 0x57, 0x92, 0xdf, 0xa9, 0xd9, 0x36, 0xff, 0xa6, 0x28, 0x2b,
];

const SECOND_ROOT: Digest = [
    0x63, 0x41, 0xeb, 0x9e, 0x4d, 0x7a, 0xdf, 0x84, 0xf8, 0x4f, 0x88, 0x77, 0xa9, 0x74, 0x8d, 0xba,
    0x9d, 0x9e, 0x76, 0x38, 0x4e, 0xc9, 0x5c, 0x3c, 0xcf, 0xd5, 0xf0, 0xc2, 0x97, 0xf0, 0x5c, 0xd0,
];

// Pages that are set in turn, and the root after them.
type Row<'a> = (&'a [(usize, &'a [u8])], Digest);

static ROWS: [Row<'static>; 6] = [
    (&[], EMPTY_ROOT),
    // A new state, and the state after `out (1)` of client 0.
    (&[(HEADER_PAGE, NEW_HEADER)], NEW_STATE_ROOT),
    (
        &[
            (HEADER_PAGE, NEW_HEADER),
            (0, FIRST_TEXT),
            (256, FIRST_REPLY),
            (HEADER_PAGE, FIRST_HEADER),
        ],
        FIRST_STATE_ROOT,
    ),
    (&[(0, FIRST_TEXT)], FIRST_ROOT),
    (&[(0, FIRST_TEXT), (300, b"abc")], SECOND_ROOT),
    (&[(0, FIRST_TEXT), (300, b"abc"), (300, b"")], FIRST_ROOT),
];

fn set_pages(tree: &mut Tree, pages: &[(usize, &[u8])]) -> Result<(), NoMemory> {
    for (page, text) in pages {
        if *page < PAGES {
            tree.set_page(*page, text)?;
        }
    }
    Ok(())
}

fn with_pages(alloc: Global, pages: &[(usize, &[u8])]) -> Result<Tree, NoMemory> {
    let mut tree = Tree::new(alloc)?;
    set_pages(&mut tree, pages)?;
    Ok(tree)
}

fn has_root(alloc: Global, (pages, root): Row<'_>) -> Verdict {
    match with_pages(alloc, pages) {
        Ok(tree) => {
            let is_right = tree.root() == root;
            drop(tree);
            Ok(is_right)
        }
        Err(NoMemory) => Err(NoMemory),
    }
}

fn have_roots(alloc: Global) -> Verdict {
    for &row in &ROWS {
        match has_root(alloc, row) {
            Ok(true) => {}
            other => return other,
        }
    }
    Ok(true)
}

#[test]
fn roots_of_pages(rt: HostRuntime) {
    holds(&rt, have_roots(rt.alloc()));
}

fn is_new(tree: &Tree) -> bool {
    tree.page(PAGES - 1).is_empty() && tree.children(Level::Inner, 31)[31] == EMPTY_PAGE
}

// Whether page 0 has the first text, and it, its part and the next page have their digests.
fn is_first(tree: &Tree) -> bool {
    let pages = tree.children(Level::Inner, 0);
    tree.page(0) == FIRST_TEXT.as_slice()
        && tree.children(Level::Root, 0)[0] == FIRST_PART
        && pages[0] == FIRST_PAGE
        && pages[1] == EMPTY_PAGE
}

fn is_snapshot_of_first(snapshot: &Snapshot) -> bool {
    snapshot.root() == FIRST_ROOT
        && snapshot.page(0) == FIRST_TEXT.as_slice()
        && snapshot.page(300).is_empty()
        && snapshot.children(Level::Root, 0)[0] == FIRST_PART
        && snapshot.children(Level::Inner, 0)[0] == FIRST_PAGE
}

// A snapshot of the tree, whose pages are then set again.
fn early_snapshot(tree: &mut Tree) -> Result<Snapshot, NoMemory> {
    let snapshot = tree.snapshot()?;
    set_pages(tree, &[(0, b"later"), (300, b"abc")])?;
    Ok(snapshot)
}

fn sets_only(tree: &mut Tree) -> Result<(), NoMemory> {
    tree.set_page(0, FIRST_TEXT)
}

// Whether the first page is set, at the second try if memory ran out at the first one, which changed nothing.
fn sets_first(tree: &mut Tree) -> Verdict {
    match sets_only(tree) {
        Ok(()) => Ok(true),
        Err(NoMemory) => sets_again(tree),
    }
}

fn sets_again(tree: &mut Tree) -> Verdict {
    let is_as_before = tree.root() == EMPTY_ROOT && tree.page(0).is_empty();
    match sets_only(tree) {
        Ok(()) => Ok(is_as_before),
        Err(NoMemory) => Err(NoMemory),
    }
}

/// At the second try if memory ran out at the first one.
pub fn new_tree(alloc: Global) -> Result<Tree, NoMemory> {
    match Tree::new(alloc) {
        Ok(tree) => Ok(tree),
        Err(NoMemory) => Tree::new(alloc),
    }
}

/// At the second try if memory ran out at the first one.
pub fn snapshot_of(tree: &Tree) -> Result<Snapshot, NoMemory> {
    match tree.snapshot() {
        Ok(snapshot) => Ok(snapshot),
        Err(NoMemory) => tree.snapshot(),
    }
}

fn has_snapshot_of_first(snapshot: Result<Snapshot, NoMemory>) -> Verdict {
    match snapshot {
        Ok(snapshot) => {
            let is_right = is_snapshot_of_first(&snapshot);
            drop(snapshot);
            Ok(is_right)
        }
        Err(NoMemory) => Err(NoMemory),
    }
}

// It keeps them when they are set again.
fn keeps_snapshot(tree: &mut Tree) -> Verdict {
    let snapshot = early_snapshot(tree);
    all_hold(&[
        has_snapshot_of_first(snapshot),
        Ok(tree.page(0) == b"later".as_slice()),
    ])
}

fn changes_nothing_refused(tree: &mut Tree) -> Verdict {
    all_hold(&[
        sets_first(tree),
        Ok(tree.root() == FIRST_ROOT),
        has_snapshot_of_first(snapshot_of(tree)),
    ])
}

// What is asked of a tree.
#[derive(Clone, Copy)]
enum Asked {
    IsNew,
    IsFirst,
    KeepsSnapshot,
    ChangesNothingRefused,
}

fn answers(tree: &mut Tree, asked: Asked) -> Verdict {
    match asked {
        Asked::IsNew => Ok(is_new(tree)),
        Asked::IsFirst => Ok(is_first(tree)),
        Asked::KeepsSnapshot => keeps_snapshot(tree),
        Asked::ChangesNothingRefused => changes_nothing_refused(tree),
    }
}

fn tree_answers(tree: Result<Tree, NoMemory>, asked: Asked) -> Verdict {
    match tree {
        Ok(mut tree) => {
            let verdict = answers(&mut tree, asked);
            drop(tree);
            verdict
        }
        Err(NoMemory) => Err(NoMemory),
    }
}

fn first_answers(alloc: Global, asked: Asked) -> Verdict {
    tree_answers(with_pages(alloc, &[(0, FIRST_TEXT)]), asked)
}

#[test]
fn a_new_tree(rt: HostRuntime) {
    holds(&rt, tree_answers(Tree::new(rt.alloc()), Asked::IsNew));
}

#[test]
fn a_page_is_set(rt: HostRuntime) {
    holds(&rt, first_answers(rt.alloc(), Asked::IsFirst));
}

#[test]
fn a_snapshot_keeps_its_pages(rt: HostRuntime) {
    holds(&rt, first_answers(rt.alloc(), Asked::KeepsSnapshot));
}

// Passes whichever growth is refused, as by `tools/growths`, since the second try is granted.
#[test]
fn refusals_change_nothing(rt: HostRuntime) {
    holds(
        &rt,
        tree_answers(new_tree(rt.alloc()), Asked::ChangesNothingRefused),
    );
}
