//! Texts for a terminal, and the reasons of refused lines.

use one_space::{Escaped, LineReason, ShownBytes};
use std::alloc::{AllocError, Global};
use std::fmt::Display;
use std::test::Fail;
use tuple_text::LineFault;

fn is_shown<D: Display>(alloc: Global, value: &D, text: &str) -> Result<bool, AllocError> {
    let shown = format!(in alloc; "{value}")?;
    Ok(shown.as_str() == text)
}

// Texts, and how they are shown on one line.
static LINES: [(&str, &str); 5] = [
    ("a b\u{e9}", "a b\u{e9}"),
    ("\u{1b}[2Ja", "\\u{1b}[2Ja"),
    ("a\nb\r", "a\\nb\\r"),
    ("\u{7f}\u{9b}", "\\u{7f}\\u{9b}"),
    ("\\n", "\\n"),
];

#[test]
fn escapes_control_characters(rt: HostRuntime) -> Result<(), Fail> {
    for &(text, shown) in &LINES {
        assert!(rt;
            is_shown(rt.alloc(), &Escaped::line(text), shown)?,
            "{shown}"
        );
    }
    let lines = Escaped::lines("a\nb\t\n");
    assert!(rt; is_shown(rt.alloc(), &lines, "a\nb\\t\n")?);
    Ok(())
}

#[test]
fn shows_bytes_that_are_no_text(rt: HostRuntime) -> Result<(), Fail> {
    let bytes = ShownBytes(b"a\xff\xc3\xa9\xc3\x07".as_slice());
    assert!(rt; is_shown(rt.alloc(), &bytes, "a\\xff\u{e9}\\xc3\\u{7}")?);
    Ok(())
}

// Whether this is the reason of a line that has such a byte at the offset.
fn is_reason(
    alloc: Global,
    number: u64,
    offset: usize,
    line: &[u8],
    text: &str,
) -> Result<bool, AllocError> {
    let reason = LineReason {
        number,
        fault: LineFault::BadByte { offset },
        line,
    };
    is_shown(alloc, &reason, text)
}

// Offsets of bad bytes, the numbers of their lines, and the reasons.
static REASONS: [(usize, u64, &str); 5] = [
    (5, 1, "no line begins so: out (\\xff"),
    (6, 1, "the line ends too early"),
    (65535, 1, "the line ends too early"),
    (65536, 1, "a line has at most 65536 bytes"),
    (
        5,
        281_474_976_710_656,
        "a script has less than 281474976710656 lines",
    ),
];

#[test]
fn tells_why_a_line_is_refused(rt: HostRuntime) -> Result<(), Fail> {
    let line = b"out (\xff".as_slice();
    for &(offset, number, text) in &REASONS {
        assert!(rt;
            is_reason(rt.alloc(), number, offset, line, text)?,
            "{text}"
        );
    }
    let line = b"01234567890123456789012345678901234567890123456789012345678901234".as_slice();
    let text = "no line begins so: ..2345678901234567890123456789012345678901234567890";
    assert!(rt; is_reason(rt.alloc(), 1, 60, line, text)?);
    Ok(())
}
