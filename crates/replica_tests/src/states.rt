//! The states of the run, and two that no replica has, by their pages, written by docs/formats.md without the code
//! that makes them.

use std::alloc::Global;
use test_bytes::{Buffer, DONE};

/// A state of the run, by its pages.
#[derive(Clone, Copy)]
pub enum State {
    /// The state after so many of its requests.
    Behind(u8),
    /// The pages of the state after the first request, with a header of no known version: they are no state's.
    NoState,
    /// The state after the first two requests, without the reply to the first one.
    Forgetful,
}

/// A part, by its level and index.
pub type At = (u8, u16);

pub const ROOT: At = (0, 0);

const INNER: u8 = 1;

pub const PAGE: u8 = 2;

// So many digests stand below the root and below an inner part.
const CHILDREN: u16 = 32;

// The page of client 0, and that of the header.
const FIRST_REPLY: u16 = 256;

const HEADER: u16 = 512;

// The header's version, and how many requests the state has behind it: so many births, and the last number.
fn header_of(state: State) -> (u8, u8) {
    match state {
        State::Behind(count) => (1, count),
        State::NoState => (3, 1),
        State::Forgetful => (1, 2),
    }
}

fn put_header(state: State, out: &mut Buffer) {
    let (version, count) = header_of(state);
    out.put_byte(version);
    out.put_number(u64::from(count));
    out.put_number(u64::from(count));
}

fn put_tuple(birth: u8, number: u8, out: &mut Buffer) {
    out.put_number(u64::from(birth));
    out.put_byte(1);
    out.put_byte(1);
    out.put_number(u64::from(number));
}

fn put_last_reply(number: u8, out: &mut Buffer) {
    out.put_number(1);
    out.put_number(u64::from(number));
    out.put(DONE);
}

// Whether the page is an empty one below the header.
fn is_empty(state: State, page: u16) -> bool {
    let (_, count) = header_of(state);
    (page & 0xff) as u8 >= count || matches!((state, page), (State::Forgetful, FIRST_REPLY))
}

// Puts the tuple of a page, or the reply. Tuple `(n)` has birth n - 1, and client n - 1 was answered by done at number
// n.
fn put_entry(page: u16, out: &mut Buffer) {
    let birth = (page & 0xff) as u8;
    let number = birth.wrapping_add(1);
    if page < FIRST_REPLY {
        put_tuple(birth, number, out);
    } else {
        put_last_reply(number, out);
    }
}

/// Puts the text of a page.
pub fn put_page(state: State, page: u16, out: &mut Buffer) {
    if page == HEADER {
        put_header(state, out);
    } else if page < HEADER && !is_empty(state, page) {
        put_entry(page, out);
    }
}

fn put_page_digest(alloc: Global, state: State, page: u16, out: &mut Buffer) {
    let mut text = Buffer::new(alloc);
    put_page(state, page, &mut text);
    out.put_digest(&text);
}

// Puts the digests of an inner part's pages, one after another.
fn put_pages_below(alloc: Global, state: State, part: u16, out: &mut Buffer) {
    for place in 0..CHILDREN {
        let page = part.wrapping_mul(CHILDREN).wrapping_add(place);
        put_page_digest(alloc, state, page, out);
    }
}

fn put_part_digest(alloc: Global, state: State, part: u16, out: &mut Buffer) {
    let mut pages = Buffer::new(alloc);
    put_pages_below(alloc, state, part, &mut pages);
    out.put_digest(&pages);
}

// Puts the digests of the inner parts, one after another.
fn put_parts_below(alloc: Global, state: State, out: &mut Buffer) {
    for part in 0..CHILDREN {
        put_part_digest(alloc, state, part, out);
    }
}

/// Puts the 32 digests below the root or an inner part, one after another.
pub fn put_children(alloc: Global, state: State, (level, index): At, out: &mut Buffer) {
    if level == INNER {
        put_pages_below(alloc, state, index, out);
    } else {
        put_parts_below(alloc, state, out);
    }
}

/// Puts the root.
pub fn put_root(alloc: Global, state: State, out: &mut Buffer) {
    let mut parts = Buffer::new(alloc);
    put_parts_below(alloc, state, &mut parts);
    out.put_digest(&parts);
}

/// The root.
pub fn root_of(alloc: Global, state: State) -> Buffer {
    let mut root = Buffer::new(alloc);
    put_root(alloc, state, &mut root);
    root
}
