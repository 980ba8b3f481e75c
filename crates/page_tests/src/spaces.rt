//! Tuples' worked pages, texts that are no state's, and memory refused.

ghost use Rattle.std.specs.Prelude.{◌<◌};

use space::{PAGES, Space};
use std::alloc::{AllocError, Global};
use std::test::Fail;
use terms::NoMemory;
use test_bytes::read_op;
use tuple_codec::{Bad, Op};

// The tuple `(1)` with birth number 0.
const FIRST: &[u8; 18] = b"\0\0\0\0\0\0\0\0\x01\x01\0\0\0\0\0\0\0\x01";

// The empty tuple with birth numbers 1 and 257, and with these in the other order.
const RISING: &[u8; 18] = b"\0\0\0\0\0\0\0\x01\0\0\0\0\0\0\0\x01\x01\0";

const FALLING: &[u8; 18] = b"\0\0\0\0\0\0\x01\x01\0\0\0\0\0\0\0\0\x01\0";

// One executed batch and 1 and 258 as the next birth number.
const HEADER: &[u8; 17] = b"\x01\0\0\0\0\0\0\0\x01\0\0\0\0\0\0\0\x01";

const LATER_HEADER: &[u8; 17] = b"\x01\0\0\0\0\0\0\0\x01\0\0\0\0\0\0\x01\x02";

// In version 2: the tuple `(1)` with birth number 0, `(w7)` with birth number 2, and the empty tuple with 1 and 257.
const FIRST_V2: &[u8; 20] = b"\0\0\0\0\0\0\0\0\0\x0a\x01\x01\0\0\0\0\0\0\0\x01";

const THIRD_V2: &[u8; 28] = b"\0\0\0\0\0\0\0\x02\0\x12\x01\x06\0\0\0\0\0\0\0\0\0\0\0\0\0\0\0\x07";

const RISING_V2: &[u8; 22] = b"\0\0\0\0\0\0\0\x01\0\x01\0\0\0\0\0\0\0\x01\x01\0\x01\0";

// Four executed batches and 3 as the next birth number, and those of the headers above.
const UPGRADED_HEADER: &[u8; 17] = b"\x02\0\0\0\0\0\0\0\x04\0\0\0\0\0\0\0\x03";

const HEADER_V2: &[u8; 17] = b"\x02\0\0\0\0\0\0\0\x01\0\0\0\0\0\0\0\x01";

const LATER_HEADER_V2: &[u8; 17] = b"\x02\0\0\0\0\0\0\0\x01\0\0\0\0\0\0\x01\x02";

fn is_applied(space: &mut Space, op: &Op<Global>) -> bool {
    space.births_left() && space.apply(0, op).is_ok()
}

// Whether the operation of these bytes is applied, at the second try if memory ran out at the first one, which
// changed nothing.
fn is_added(space: &mut Space, alloc: Global, op: &[u8]) -> bool {
    let Some(op) = read_op(alloc, op) else {
        return false;
    };
    let count = space.count();
    is_applied(space, &op) || space.count() == count && is_applied(space, &op)
}

// The page's text, at the second try if memory ran out at the first one.
fn page_of(space: &Space, page: usize) -> Result<Vec<u8>, NoMemory>
    requires { page < PAGES }
{
    match space.page_text(page) {
        Ok(text) => Ok(text),
        Err(_) => space.page_text(page),
    }
}

fn has_page(space: &Space, page: usize, text: &[u8]) -> bool {
    page < PAGES && matches!(page_of(space, page), Ok(read) if read.as_slice() == text)
}

// Passes whichever growth is refused, as by `tools/growths`.
#[test]
fn pages_of_a_space(rt: HostRuntime) {
    let mut space = Space::new(rt.alloc());
    assert!(rt; has_page(&space, 0, b""));
    assert!(rt; is_added(&mut space, rt.alloc(), b"\x21\x01\x01\0\0\0\0\0\0\0\x01"));
    assert!(rt; has_page(&space, 0, FIRST.as_slice()) && has_page(&space, 1, b""));
    assert_eq!(rt; space.header_text(1), *HEADER);
}

// An upgrade rewrites each page.
#[test]
fn pages_after_an_upgrade(rt: HostRuntime) {
    let mut space = Space::new(rt.alloc());
    assert!(rt; is_added(&mut space, rt.alloc(), b"\x21\x01\x01\0\0\0\0\0\0\0\x01"));
    assert!(rt; is_added(&mut space, rt.alloc(), b"\x21\x01\x01\0\0\0\0\0\0\0\x02"));
    assert!(rt; is_added(&mut space, rt.alloc(), b"\x27"));
    assert!(rt;
        is_added(
            &mut space,
            rt.alloc(),
            b"\x21\x01\x06\0\0\0\0\0\0\0\0\0\0\0\0\0\0\0\x07"
        )
    );
    assert!(rt;
        has_page(&space, 0, FIRST_V2.as_slice()) && has_page(&space, 2, THIRD_V2.as_slice())
    );
    assert_eq!(rt; space.header_text(4), *UPGRADED_HEADER);
}

// Page 1 has the births 1 and 257 in their order.
#[test]
fn births_in_order(rt: HostRuntime) {
    let mut space = Space::new(rt.alloc());
    for _birth in 0..258 {
        assert!(rt; is_added(&mut space, rt.alloc(), b"\x21\0"));
    }
    assert!(rt; has_page(&space, 1, RISING.as_slice()));
    assert_eq!(rt; space.header_text(1), *LATER_HEADER);
}

// The space with these pages, at the second try if memory ran out at the first one.
fn space_of(alloc: Global, pages: &[&[u8]], header: &[u8]) -> Result<(Space, u64), Bad> {
    match Space::from_pages(alloc, pages, header) {
        Err(Bad::NoMemory) => Space::from_pages(alloc, pages, header),
        first => first,
    }
}

fn has_pages(space: &Space, pages: &[&[u8]]) -> bool {
    for (page, text) in pages.iter().enumerate() {
        if !has_page(space, page, text) {
            return false;
        }
    }
    true
}

// The result of reading these pages: whether the space has the pages and the header again.
fn is_read(alloc: Global, pages: &[&[u8]], header: &[u8]) -> Result<bool, Bad> {
    let (space, number) = space_of(alloc, pages, header)?;
    Ok(has_pages(&space, pages) && space.header_text(number).as_slice() == header)
}

// The same if only the first two pages have texts.
fn are_read(alloc: Global, first: [&[u8]; 2], header: &[u8]) -> Result<bool, Bad> {
    let mut pages: [&[u8]; PAGES] = [&[]; PAGES];
    pages[0] = first[0];
    pages[1] = first[1];
    is_read(alloc, pages.as_slice(), header)
}

// Passes whichever growth is refused.
#[test]
fn pages_are_read_back(rt: HostRuntime) {
    let rows: [([&[u8]; 2], &[u8]); 6] = [
        ([b"", b""], b"\x01\0\0\0\0\0\0\0\0\0\0\0\0\0\0\0\0"),
        ([FIRST, b""], HEADER),
        ([FIRST, RISING], LATER_HEADER),
        ([b"", b""], b"\x02\0\0\0\0\0\0\0\0\0\0\0\0\0\0\0\0"),
        ([FIRST_V2, b""], HEADER_V2),
        ([FIRST_V2, RISING_V2], LATER_HEADER_V2),
    ];
    for (first, header) in rows {
        assert_eq!(rt; are_read(rt.alloc(), first, header), Ok(true));
    }
}

// Headers of no state.
static WRONG_HEADERS: [&[u8]; 7] = [
    b"",
    // Other versions, a byte too few, a byte too many.
    b"\0\0\0\0\0\0\0\0\x01\0\0\0\0\0\0\0\x01",
    b"\x03\0\0\0\0\0\0\0\x01\0\0\0\0\0\0\0\x01",
    b"\x01\0\0\0\0\0\0\0\x01\0\0\0\0\0\0\0",
    b"\x01\0\0\0\0\0\0\0\x01\0\0\0\0\0\0\0\0\x01",
    // 4,097 births for one batch, and 2 to the power of 48 batches.
    b"\x01\0\0\0\0\0\0\0\x01\0\0\0\0\0\0\x10\x01",
    b"\x01\0\x01\0\0\0\0\0\0\0\0\0\0\0\0\0\x01",
];

// 4,096 births for one batch.
const FITTING: &[u8; 17] = b"\x01\0\0\0\0\0\0\0\x01\0\0\0\0\0\0\x10\0";

#[test]
fn headers_of_no_state(rt: HostRuntime) {
    for &header in &WRONG_HEADERS {
        assert_eq!(rt;
            are_read(rt.alloc(), [b"", b""], header),
            Err(Bad::Malformed)
        );
    }
    assert_eq!(rt; are_read(rt.alloc(), [b"", b""], FITTING), Ok(true));
}

#[test]
fn too_few_and_too_many_pages(rt: HostRuntime) {
    let pages: [&[u8]; 257] = [&[]; 257];
    let few = is_read(rt.alloc(), &pages[..255], FITTING);
    assert_eq!(rt; few, Err(Bad::Malformed));
    let many = is_read(rt.alloc(), pages.as_slice(), FITTING);
    assert_eq!(rt; many, Err(Bad::Malformed));
}

// Texts that page 1 doesn't have.
static WRONG_PAGES: [&[u8]; 8] = [
    FALLING,
    // The birth 1 twice, the birth 0, which is another page's, and 513, which is not below the next one.
    b"\0\0\0\0\0\0\0\x01\0\0\0\0\0\0\0\0\x01\0",
    b"\0\0\0\0\0\0\0\0\0",
    b"\0\0\0\0\0\0\x02\x01\0",
    // A birth alone, half a birth, a truth value that there is not, and a byte too many.
    b"\0\0\0\0\0\0\0\x01",
    b"\0\0\0\0",
    b"\0\0\0\0\0\0\0\x01\x01\x04\x02",
    b"\0\0\0\0\0\0\0\x01\0\0",
];

#[test]
fn pages_of_no_state(rt: HostRuntime) {
    for &text in &WRONG_PAGES {
        assert_eq!(rt;
            are_read(rt.alloc(), [b"", text], LATER_HEADER),
            Err(Bad::Malformed)
        );
    }
}

// Texts that page 1 doesn't have in version 2.
static WRONG_PAGES_V2: [&[u8]; 7] = [
    // Those of version 1.
    RISING,
    b"\0\0\0\0\0\0\0\x01\0",
    // A length too great, one too small, one with the bytes turned, a length alone, and a byte too many.
    b"\0\0\0\0\0\0\0\x01\0\x02\0",
    b"\0\0\0\0\0\0\0\x01\0\0\0",
    b"\0\0\0\0\0\0\0\x01\x01\0\0",
    b"\0\0\0\0\0\0\0\x01\0\x01",
    b"\0\0\0\0\0\0\0\x01\0\x01\0\0",
];

#[test]
fn pages_of_no_state_in_version_2(rt: HostRuntime) {
    for &text in &WRONG_PAGES_V2 {
        assert_eq!(rt;
            are_read(rt.alloc(), [b"", text], LATER_HEADER_V2),
            Err(Bad::Malformed)
        );
    }
}

// Five batches, and 20,480 as the next birth number.
const MANY_HEADER: &[u8; 17] = b"\x01\0\0\0\0\0\0\0\x05\0\0\0\0\0\0\x50\0";

// A page with the first so many of its births, each of an empty tuple.
fn text_of(alloc: Global, page: u64, count: u64) -> Result<Vec<u8>, AllocError> {
    let mut text = Vec::new(alloc);
    for nth in 0..count.min(100) {
        text.extend_from_slice(&(256 * nth + page.min(255)).to_be_bytes())?;
        text.extend_from_slice(b"\0")?;
    }
    Ok(text)
}

// Whether page 1 is read with so many tuples.
fn is_long_page_read(alloc: Global, count: u64) -> Result<bool, Bad> {
    let text = text_of(alloc, 1, count)?;
    are_read(alloc, [b"", text.as_slice()], MANY_HEADER)
}

#[test]
fn pages_of_64_tuples(rt: HostRuntime) {
    assert_eq!(rt; is_long_page_read(rt.alloc(), 64), Ok(true));
    assert_eq!(rt; is_long_page_read(rt.alloc(), 65), Err(Bad::Malformed));
}

// 128 full pages, and so many tuples on the next page.
fn texts_of(alloc: Global, more: u64) -> Result<Vec<Vec<u8>>, AllocError> {
    let mut texts = Vec::new(alloc);
    for page in 0..256 {
        let count = match page {
            0..128 => 64,
            128 => more,
            _ => 0,
        };
        texts.push(text_of(alloc, page, count)?)?;
    }
    Ok(texts)
}

fn are_texts_read(alloc: Global, texts: &[Vec<u8>]) -> Result<bool, Bad> {
    let mut pages: [&[u8]; PAGES] = [&[]; PAGES];
    for (page, text) in texts.iter().enumerate() {
        if page < PAGES {
            pages[page] = text.as_slice();
        }
    }
    is_read(alloc, pages.as_slice(), MANY_HEADER)
}

// Whether 128 full pages are read with so many tuples on the next page.
fn are_full_pages_read(alloc: Global, more: u64) -> Result<bool, Bad> {
    let texts = texts_of(alloc, more)?;
    are_texts_read(alloc, texts.as_slice())
}

#[test]
fn pages_of_8192_tuples(rt: HostRuntime) {
    assert_eq!(rt; are_full_pages_read(rt.alloc(), 0), Ok(true));
    assert_eq!(rt; are_full_pages_read(rt.alloc(), 1), Err(Bad::Malformed));
}
