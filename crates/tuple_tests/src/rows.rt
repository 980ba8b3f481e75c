//! Worked rows: which templates match which tuples, the one in an arena and the other in ordinary memory, and which
//! bytes spell a tuple.

use bumpalo::Bump;
use std::alloc::Global;
use std::test::Fail;
use template_match::matches;
use tuple_codec::{Bad, decode_template, decode_tuple};

// A template, a tuple, and whether they match.
type Row<'a> = (&'a [u8], &'a [u8], bool);

// Whether the two match as the row says.
fn agrees(alloc: Global, (template_bytes, tuple_bytes, expected): Row<'_>) -> Result<bool, Bad> {
    let bump = Bump::new(alloc);
    let (template, _) = decode_template(&bump, template_bytes)?;
    let (tuple, _) = decode_tuple(alloc, tuple_bytes)?;
    Ok(matches(&template, &tuple) == expected)
}

const NESTED_ONE: &[u8] = b"\x01\x05\x01\x01\x00\x00\x00\x00\x00\x00\x00\x01";

const ONE: &[u8] = b"\x01\x01\x00\x00\x00\x00\x00\x00\x00\x01";

const WIDE: &[u8] = b"\x01\x06\0\0\0\0\0\0\0\0\0\0\0\0\0\0\0\x01";

static ROWS: [Row<'static>; 21] = [
    // ((*)), (?tuple), ((* *)), ((2)) and (*) against ((1))
    (b"\x01\x05\x01\x10", NESTED_ONE, true),
    (b"\x01\x15", NESTED_ONE, true),
    (b"\x01\x05\x02\x10\x10", NESTED_ONE, false),
    (
        b"\x01\x05\x01\x01\x00\x00\x00\x00\x00\x00\x00\x02",
        NESTED_ONE,
        false,
    ),
    (b"\x01\x10", NESTED_ONE, true),
    // (?int) against (true) and (1)
    (b"\x01\x11", b"\x01\x04\x01", false),
    (b"\x01\x11", ONE, true),
    // (1) against ("1") and (1)
    (ONE, b"\x01\x02\x00\x011", false),
    (ONE, ONE, true),
    // (?text), (?bytes) and (?bool)
    (b"\x01\x12", b"\x01\x02\x00\x011", true),
    (b"\x01\x13", b"\x01\x03\x00\x011", true),
    (b"\x01\x14", b"\x01\x04\x00", true),
    // (?wide), (w1), (1), (w-1) and (?int) against (w1), and (w1) and (?wide) against (1)
    (b"\x01\x16", WIDE, true),
    (WIDE, WIDE, true),
    (ONE, WIDE, false),
    (
        b"\x01\x06\xff\xff\xff\xff\xff\xff\xff\xff\xff\xff\xff\xff\xff\xff\xff\xff",
        WIDE,
        false,
    ),
    (b"\x01\x11", WIDE, false),
    (WIDE, ONE, false),
    (b"\x01\x16", ONE, false),
    // lists of different length
    (b"\x00", b"\x00", true),
    (b"\x01\x10", b"\x00", false),
];

#[test]
fn templates_match_tuples(rt: HostRuntime) -> Result<(), Fail> {
    for &row in &ROWS {
        assert!(rt; agrees(rt.alloc(), row)?);
    }
    Ok(())
}

// How many bytes a tuple is read from, how many values it has, and how many bytes it says that it takes.
fn lens(alloc: Global, bytes: &[u8]) -> Result<(usize, usize, usize), Bad> {
    let (tuple, len) = decode_tuple(alloc, bytes)?;
    let lens = (len, tuple.len(), tuple.encoded_len());
    drop(tuple);
    Ok(lens)
}

#[test]
fn bytes_behind_a_tuple_are_left(rt: HostRuntime) -> Result<(), Fail> {
    // (1 "a"), and two bytes more
    let bytes = b"\x02\x01\x00\x00\x00\x00\x00\x00\x00\x01\x02\x00\x01a\x00\xff".as_slice();
    assert_eq!(rt; lens(rt.alloc(), bytes)?, (14, 2, 14));
    Ok(())
}

static MALFORMED: [&[u8]; 6] = [
    // a truth value of 02, a text that isn't UTF-8, an unknown tag, a template's fields, 33 values
    b"\x02\x05\x01\x02\x00\x01x\x04\x02",
    b"\x01\x02\x00\x01\xff",
    b"\x01\x07",
    b"\x01\x10",
    b"\x01\x16",
    b"\x21",
];

fn is_malformed(alloc: Global, bytes: &[u8]) -> bool {
    match decode_tuple(alloc, bytes) {
        Ok((tuple, _len)) => {
            drop(tuple);
            false
        }
        Err(bad) => bad == Bad::Malformed,
    }
}

#[test]
fn no_other_bytes_are_a_tuple(rt: HostRuntime) {
    // (("x") true), and similar tuples
    let nested = b"\x02\x05\x01\x02\x00\x01x\x04\x01".as_slice();
    for len in 0..nested.len() {
        assert!(rt; is_malformed(rt.alloc(), &nested[..len]));
    }
    for &row in &MALFORMED {
        assert!(rt; is_malformed(rt.alloc(), row));
    }
}
