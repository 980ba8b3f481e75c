//! The state that a batch of two requests leaves, installed from its pages, which are written by docs/formats.md.

use crate::answers::{all_hold, holds, spells_answer};
use crate::state::batches::{ROOT_AFTER_ONE, ROOT_AFTER_TWO, beginning, has_root, leaves};
use execution::Executed;
use partition_tree::{PAGES, Tree};
use space::PeekFault;
use std::alloc::Global;
use terms::{ClientId, Digest, NoMemory, Number};
use test_bytes::read_op;
use tuple_codec::Op;

// A page and its text.
type Text = (usize, &'static [u8]);

// The tuples (1) and (2) with the births 0 and 1, the replies to both clients, and the header.
static AFTER_ONE: [Text; 5] = [
    (0, b"\0\0\0\0\0\0\0\0\x01\x01\0\0\0\0\0\0\0\x01"),
    (1, b"\0\0\0\0\0\0\0\x01\x01\x01\0\0\0\0\0\0\0\x02"),
    (256, b"\0\0\0\0\0\0\0\x01\0\0\0\0\0\0\0\x011"),
    (257, b"\0\0\0\0\0\0\0\x02\0\0\0\0\0\0\0\x011"),
    (512, b"\x01\0\0\0\0\0\0\0\x01\0\0\0\0\0\0\0\x02"),
];

// The header of the state before the first batch.
static BEGINNING: [Text; 1] = [(512, b"\x01\0\0\0\0\0\0\0\0\0\0\0\0\0\0\0\0")];

// The state of the next number, without the reply to client 0.
static FORGETFUL: [Text; 4] = [
    (0, b"\0\0\0\0\0\0\0\0\x01\x01\0\0\0\0\0\0\0\x01"),
    (1, b"\0\0\0\0\0\0\0\x01\x01\x01\0\0\0\0\0\0\0\x02"),
    (257, b"\0\0\0\0\0\0\0\x02\0\0\0\0\0\0\0\x011"),
    (512, b"\x01\0\0\0\0\0\0\0\x02\0\0\0\0\0\0\0\x02"),
];

// The first tuple is (3) in place of (1).
const THREE: Text = (0, b"\0\0\0\0\0\0\0\0\x01\x01\0\0\0\0\0\0\0\x03");

// The reply to client 0 has the timestamp 7, and there is one to client 255, of the timestamp 3.
const LATER: Text = (256, b"\0\0\0\0\0\0\0\x07\0\0\0\0\0\0\0\x011");

const LAST_CLIENT: Text = (511, b"\0\0\0\0\0\0\0\x03\0\0\0\0\0\0\0\x011");

// The roots were computed by Python's hashlib, over the pages after one batch with each of these changes, as
// docs/formats.md has them.
static ROOT_OF_THREE: Digest = [
    0x2d, 0x32, 0x9f, 0x9a, 0x7e, 0x65, 0xe7, 0x2b, 0xbf, 0x01, 0x48, 0x8a, 0x92, 0x45, 0x10, 0x00,
    0x42, 0x35, 0x66, 0xf1, 0x96, 0xb1, 0x20, 0xb4, 0x17, 0xce, 0xc6, 0x80, 0x0c, 0xd7, 0xee, 0x95,
];

static ROOT_OF_LATER: Digest = [
    0x10, 0x64, 0x71, 0x92, 0x9e, 0x99, 0x55, 0xfa, 0xb0, 0x66, 0x36, 0x84, 0x05, 0xb2, 0xfb, 0x9d,
    0x89, 0x34, 0xfb, 0xce, 0xc6, 0xf9, 0x8f, 0x54, 0x63, 0x21, 0xd3, 0x4c, 0xec, 0x79, 0x0e, 0x1e,
];

static ROOT_OF_LAST_CLIENT: Digest = [
    0x21, 0x8f, 0x52, 0xdb, 0xcd, 0xbc, 0x78, 0xb0, 0x83, 0x25, 0x15, 0x48, 0xb1, 0xad, 0xdc, 0x7f,
    0x4f, 0x9f, 0xa8, 0xa0, 0x32, 0x9d, 0x1f, 0xe1, 0x89, 0x1d, 0xb3, 0x72, 0x93, 0x9c, 0xe4, 0x7a,
];

// Sets these pages, and then the changed one, if any.
fn set_all(tree: &mut Tree, texts: &[Text], changed: Option<Text>) -> Result<(), NoMemory> {
    for text in texts {
        set(tree, *text)?;
    }
    match changed {
        Some(text) => set(tree, text),
        None => Ok(()),
    }
}

fn set(tree: &mut Tree, (page, text): Text) -> Result<(), NoMemory> {
    if page < PAGES {
        tree.set_page(page, text)
    } else {
        Ok(())
    }
}

// Whether these pages, with one of them changed, if any, are installed as those of this number.
fn installs_pages(
    executed: &mut Executed,
    alloc: Global,
    number: u64,
    texts: &[Text],
    changed: Option<Text>,
) -> Result<bool, NoMemory> {
    let mut pages = Tree::new(alloc)?;
    match set_all(&mut pages, texts, changed) {
        Ok(()) => executed.install(Number(number), pages),
        Err(NoMemory) => {
            drop(pages);
            Err(NoMemory)
        }
    }
}

// The same of the pages after one batch.
fn installs(
    executed: &mut Executed,
    alloc: Global,
    number: u64,
    changed: Option<Text>,
) -> Result<bool, NoMemory> {
    installs_pages(executed, alloc, number, &AFTER_ONE, changed)
}

fn new_state(alloc: Global) -> Result<Box<Executed>, NoMemory> {
    let mut executed = beginning(alloc, 2)?;
    match installs(&mut *executed, alloc, 1, None) {
        Ok(_) => Ok(executed),
        Err(NoMemory) => {
            drop(executed);
            Err(NoMemory)
        }
    }
}

// Whether the state is the one after one batch.
fn is_after_one(executed: &mut Executed) -> Result<bool, NoMemory> {
    let is_of_one = executed.number().0 == 1
        && executed.seen(ClientId { number: 0 }).0 == 1
        && executed.seen(ClientId { number: 1 }).0 == 2;
    all_hold(&[Ok(is_of_one), has_root(executed, &ROOT_AFTER_ONE)])
}

fn is_installed(alloc: Global) -> Result<bool, NoMemory> {
    let mut executed = beginning(alloc, 2)?;
    let installed = installs(&mut *executed, alloc, 1, None);
    let answer = all_hold(&[installed, is_after_one(&mut *executed)]);
    drop(executed);
    answer
}

#[test]
fn a_state_is_installed(rt: HostRuntime) {
    holds(&rt, is_installed(rt.alloc()));
}

fn runs_none_again(alloc: Global) -> Result<bool, NoMemory> {
    let mut executed = new_state(alloc)?;
    let answer = leaves(&mut *executed, 0, &ROOT_AFTER_TWO);
    drop(executed);
    answer
}

// The next batch has the same requests, which don't run again.
#[test]
fn a_batch_runs_on_a_state(rt: HostRuntime) {
    holds(&rt, runs_none_again(rt.alloc()));
}

fn answers_op(
    executed: &Executed,
    alloc: Global,
    op: &Op<Global>,
    answer: &[u8],
) -> Result<bool, NoMemory> {
    match executed.space().peek(op) {
        Ok(given) => {
            let is_right = spells_answer(alloc, &given, answer);
            drop(given);
            is_right
        }
        Err(PeekFault::NotReadOnly) => Ok(false),
        Err(PeekFault::NoMemory) => Err(NoMemory),
    }
}

// Whether the space answers the read of these bytes so.
fn answers(executed: &Executed, alloc: Global, op: &[u8], answer: &[u8]) -> Result<bool, NoMemory> {
    match read_op(alloc, op) {
        Some(op) => {
            let is_right = answers_op(executed, alloc, &op, answer);
            drop(op);
            is_right
        }
        None => Err(NoMemory),
    }
}

// `rdp (2)` and `rdp (3)`.
fn is_read(executed: &Executed, alloc: Global) -> Result<bool, NoMemory> {
    let found = b"\x32\x01\x01\0\0\0\0\0\0\0\x02";
    let two = b"\x22\x01\x01\0\0\0\0\0\0\0\x02";
    let three = b"\x22\x01\x01\0\0\0\0\0\0\0\x03";
    all_hold(&[
        answers(executed, alloc, two, found),
        answers(executed, alloc, three, b"\x33"),
    ])
}

fn new_state_is_read(alloc: Global) -> Result<bool, NoMemory> {
    let executed = new_state(alloc)?;
    let answer = is_read(&*executed, alloc);
    drop(executed);
    answer
}

#[test]
fn a_state_is_read(rt: HostRuntime) {
    holds(&rt, new_state_is_read(rt.alloc()));
}

// Whether the pages after one batch, changed so, are installed in place of those, and have this root.
fn replaces(
    executed: &mut Executed,
    alloc: Global,
    number: u64,
    changed: Text,
    root: &Digest,
) -> Result<bool, NoMemory> {
    let installed = installs(executed, alloc, number, Some(changed));
    all_hold(&[installed, has_root(executed, root)])
}

// Nothing is left of the state that was there, whose timestamps were the same or lower.
fn is_replaced(executed: &mut Executed, alloc: Global) -> Result<bool, NoMemory> {
    all_hold(&[
        replaces(executed, alloc, 1, THREE, &ROOT_OF_THREE),
        replaces(executed, alloc, 1, LATER, &ROOT_OF_LATER),
        Ok(executed.seen(ClientId { number: 0 }).0 == 7),
    ])
}

fn new_state_is_replaced(alloc: Global) -> Result<bool, NoMemory> {
    let mut executed = new_state(alloc)?;
    let answer = is_replaced(&mut *executed, alloc);
    drop(executed);
    answer
}

#[test]
fn a_state_is_replaced(rt: HostRuntime) {
    holds(&rt, new_state_is_replaced(rt.alloc()));
}

// Whether these pages, changed so, are not installed as those of this number.
fn is_refused(
    executed: &mut Executed,
    alloc: Global,
    number: u64,
    texts: &[Text],
    changed: Option<Text>,
) -> Result<bool, NoMemory> {
    Ok(!installs_pages(executed, alloc, number, texts, changed)?)
}

fn keeps_the_last_client(executed: &mut Executed, alloc: Global) -> Result<bool, NoMemory> {
    all_hold(&[
        replaces(executed, alloc, 1, LAST_CLIENT, &ROOT_OF_LAST_CLIENT),
        is_refused(executed, alloc, 1, &AFTER_ONE, None),
        Ok(executed.seen(ClientId { number: 255 }).0 == 3),
        has_root(executed, &ROOT_OF_LAST_CLIENT),
    ])
}

fn last_client_is_kept(alloc: Global) -> Result<bool, NoMemory> {
    let mut executed = beginning(alloc, 256)?;
    let answer = keeps_the_last_client(&mut *executed, alloc);
    drop(executed);
    answer
}

// The reply to client 255 would be lost.
#[test]
fn the_last_client_counts(rt: HostRuntime) {
    holds(&rt, last_client_is_kept(rt.alloc()));
}

// Which page of those after one batch is another one: no reply to client 0, and one of a lower timestamp to client 1.
static LOWER: [(u64, Option<Text>); 2] = [
    (1, Some((256, b""))),
    (1, Some((257, b"\0\0\0\0\0\0\0\x01\0\0\0\0\0\0\0\x011"))),
];

// Whether the pages after one batch, changed so, are refused as those of the number beside, and the state stays.
fn refuses_all(
    executed: &mut Executed,
    alloc: Global,
    rows: &[(u64, Option<Text>)],
) -> Result<bool, NoMemory> {
    for (number, changed) in rows {
        if !refuses(executed, alloc, *number, &AFTER_ONE, *changed)? {
            return Ok(false);
        }
    }
    Ok(true)
}

// Whether these pages, changed so, are refused as those of this number, and the state stays.
fn refuses(
    executed: &mut Executed,
    alloc: Global,
    number: u64,
    texts: &[Text],
    changed: Option<Text>,
) -> Result<bool, NoMemory> {
    let refused = is_refused(executed, alloc, number, texts, changed);
    all_hold(&[refused, is_after_one(executed)])
}

fn refuses_lower_ones(executed: &mut Executed, alloc: Global) -> Result<bool, NoMemory> {
    all_hold(&[
        refuses_all(executed, alloc, &LOWER),
        refuses(executed, alloc, 0, &BEGINNING, None),
        refuses(executed, alloc, 2, &FORGETFUL, None),
    ])
}

fn lower_ones_are_refused(alloc: Global) -> Result<bool, NoMemory> {
    let mut executed = new_state(alloc)?;
    let answer = refuses_lower_ones(&mut *executed, alloc);
    drop(executed);
    answer
}

// States in which a client's last timestamp is lower change nothing, whatever their numbers are.
#[test]
fn no_timestamp_falls(rt: HostRuntime) {
    holds(&rt, lower_ones_are_refused(rt.alloc()));
}

// A number, and the changed page of those after one batch, if any.
static WRONG: [(u64, Option<Text>); 13] = [
    // The numbers of other states.
    (0, None),
    (2, None),
    (1 << 48, None),
    // The birth of another page, and a value that there is not.
    (
        1,
        Some((0, b"\0\0\0\0\0\0\0\x01\x01\x01\0\0\0\0\0\0\0\x01")),
    ),
    (1, Some((0, b"\0\0\0\0\0\0\0\0\x01\x07\0\0\0\0\0\0\0\x01"))),
    // The timestamp 0, and an answer that there is not.
    (1, Some((256, b"\0\0\0\0\0\0\0\0\0\0\0\0\0\0\0\x011"))),
    (1, Some((257, b"\0\0\0\0\0\0\0\x02\0\0\0\0\0\0\0\x018"))),
    // No header, another version, and a next birth that is on page 1.
    (1, Some((512, b""))),
    (1, Some((512, b"\x02\0\0\0\0\0\0\0\x01\0\0\0\0\0\0\0\x02"))),
    (1, Some((512, b"\x01\0\0\0\0\0\0\0\x01\0\0\0\0\0\0\0\x01"))),
    // Texts after the header.
    (1, Some((513, b"\0"))),
    (1, Some((800, b"\x01"))),
    (1, Some((1023, b"1"))),
];

fn wrong_ones_are_refused(alloc: Global) -> Result<bool, NoMemory> {
    let mut executed = new_state(alloc)?;
    let answer = refuses_all(&mut *executed, alloc, &WRONG);
    drop(executed);
    answer
}

#[test]
fn pages_of_no_state(rt: HostRuntime) {
    holds(&rt, wrong_ones_are_refused(rt.alloc()));
}

fn has_pages(executed: &mut Executed) -> Result<bool, NoMemory> {
    for &text in &AFTER_ONE {
        if !has_page(executed, text)? {
            return Ok(false);
        }
    }
    Ok(true)
}

fn has_page(executed: &mut Executed, (page, text): Text) -> Result<bool, NoMemory> {
    Ok(page >= PAGES || executed.pages()?.page(page) == text)
}

fn has_its_root(executed: &mut Executed) -> Result<bool, NoMemory> {
    let checkpoint = executed.checkpoint()?;
    let root = checkpoint.root();
    drop(checkpoint);
    Ok(root == executed.pages()?.root())
}

fn new_pages_are_lent(alloc: Global) -> Result<bool, NoMemory> {
    let mut executed = new_state(alloc)?;
    let answer = all_hold(&[has_pages(&mut *executed), has_its_root(&mut *executed)]);
    drop(executed);
    answer
}

// The pages that are lent are those installed, and those of a checkpoint.
#[test]
fn pages_are_lent(rt: HostRuntime) {
    holds(&rt, new_pages_are_lent(rt.alloc()));
}

// Whether the pages after one batch are installed in a new state, at the second try if memory ran out at the first
// one, which changed nothing.
fn installs_again(executed: &mut Executed, alloc: Global) -> Result<bool, NoMemory> {
    match installs(executed, alloc, 1, None) {
        Ok(installed) => Ok(installed),
        Err(NoMemory) => {
            Ok(
                executed.number().0 == 0
                    && executed.seen(ClientId { number: 1 }).0 == 0
                    && installs(executed, alloc, 1, None)?,
            )
        }
    }
}

// The same, at the second try if memory ran out at the first one.
fn is_after_one_again(executed: &mut Executed) -> Result<bool, NoMemory> {
    match is_after_one(executed) {
        Ok(true) => Ok(true),
        _ => is_after_one(executed),
    }
}

fn beginning_again(alloc: Global) -> Result<Box<Executed>, NoMemory> {
    match beginning(alloc, 2) {
        Ok(executed) => Ok(executed),
        Err(NoMemory) => beginning(alloc, 2),
    }
}

fn is_installed_again(alloc: Global) -> Result<bool, NoMemory> {
    let mut executed = beginning_again(alloc)?;
    let installed = installs_again(&mut *executed, alloc);
    let answer = all_hold(&[installed, is_after_one_again(&mut *executed)]);
    drop(executed);
    answer
}

// Passes whichever growth is refused, as by `tools/growths`.
#[test]
fn refused_memory(rt: HostRuntime) {
    holds(&rt, is_installed_again(rt.alloc()));
}
