//! Worked rows of the grammar of lines.

use std::alloc::{AllocError, Global};
use std::test::Fail;
use tuple_codec::{Op, encode_op};
use tuple_text::{LineFault, read_line, read_template, write_op, write_tuple};

// Lines and the bytes of their operations.
static LINES: [(&[u8], &[u8]); 28] = [
    (b"out (1)", b"\x21\x01\x01\0\0\0\0\0\0\0\x01"),
    (
        b"  out   ( 1  -2 )  ",
        b"\x21\x02\x01\0\0\0\0\0\0\0\x01\x01\xff\xff\xff\xff\xff\xff\xff\xfe",
    ),
    (
        b"out (-9223372036854775808)",
        b"\x21\x01\x01\x80\0\0\0\0\0\0\0",
    ),
    (b"out ()", b"\x21\0"),
    (
        b"out ((\"x\") true)",
        b"\x21\x02\x05\x01\x02\0\x01x\x04\x01",
    ),
    (
        b"out (x x00ff false)",
        b"\x21\x03\x03\0\0\x03\0\x02\x00\xff\x04\0",
    ),
    (b"out (\"\\\"\\\\\\n\\x09\")", b"\x21\x01\x02\0\x04\"\\\n\t"),
    (
        b"out (((((((())))))))",
        b"\x21\x01\x05\x01\x05\x01\x05\x01\x05\x01\x05\x01\x05\x01\x05\0",
    ),
    (b"rdp (?int)", b"\x22\x01\x11"),
    (
        b"rdp (* ?text ?bytes ?bool ?tuple)",
        b"\x22\x05\x10\x12\x13\x14\x15",
    ),
    (b"inp ((?int) \"a\")", b"\x23\x02\x05\x01\x11\x02\0\x01a"),
    (
        b"cas (\"k\" *) (\"k\" 1)",
        b"\x24\x02\x02\0\x01k\x10\x02\x02\0\x01k\x01\0\0\0\0\0\0\0\x01",
    ),
    (b"rdAll 64 (*)", b"\x25\x40\x01\x10"),
    (b"rdAll 1 ()", b"\x25\x01\0"),
    (
        b"out (\"\\\"\\\\\\n\\x01\\x1f\x7f \xC3\xA9\xE2\x82\xAC\xF0\x9D\x84\x9E\")",
        b"\x21\x01\x02\0\x10\"\\\n\x01\x1f\x7f \xC3\xA9\xE2\x82\xAC\xF0\x9D\x84\x9E",
    ),
    (b"out (x09af)", b"\x21\x01\x03\0\x02\x09\xAF"),
    (b"out (x)", b"\x21\x01\x03\0\0"),
    (
        b"out (w1 w0)",
        b"\x21\x02\x06\0\0\0\0\0\0\0\0\0\0\0\0\0\0\0\x01\x06\0\0\0\0\0\0\0\0\0\0\0\0\0\0\0\0",
    ),
    (
        b"out (w-1)",
        b"\x21\x01\x06\xff\xff\xff\xff\xff\xff\xff\xff\xff\xff\xff\xff\xff\xff\xff\xff",
    ),
    (
        b"out (w170141183460469231731687303715884105727)",
        b"\x21\x01\x06\x7f\xff\xff\xff\xff\xff\xff\xff\xff\xff\xff\xff\xff\xff\xff\xff",
    ),
    (
        b"out (w-170141183460469231731687303715884105728)",
        b"\x21\x01\x06\x80\0\0\0\0\0\0\0\0\0\0\0\0\0\0\0",
    ),
    (b"inp (?wide)", b"\x23\x01\x16"),
    (b"inAll 2 (?wide)", b"\x26\x02\x01\x16"),
    (b"inAll 64 (*)", b"\x26\x40\x01\x10"),
    (b"inAll 1 ()", b"\x26\x01\0"),
    (
        b"  inAll   10  ( \"a\"  (?int) )  ",
        b"\x26\x0a\x02\x02\0\x01a\x05\x01\x11",
    ),
    (b"upgrade", b"\x27"),
    (b"  upgrade  ", b"\x27"),
];

// Lines, and the offset of the first byte that can't continue any valid line.
static BAD_BYTES: [(&[u8], usize); 81] = [
    (b"rdp (1)(2)", 7),
    (b"out (01)", 6),
    (b"out (-0)", 6),
    (b"out (9223372036854775808)", 23),
    (b"rdAll 65 (*)", 7),
    (b"rdAll 0 (*)", 6),
    (b"rdAll 064 (*)", 6),
    (b"rdAll (*)", 6),
    (b"out (1", 6),
    (b"out (1))", 7),
    (b"out (1(2))", 6),
    (b"out ((1)2)", 8),
    (b"out (1)\r", 7),
    (b"out (1) (2)", 8),
    (b"out(1)", 3),
    (b"ou", 2),
    (b"out", 3),
    (b"rdq (1)", 2),
    (b"rdall 1 (*)", 2),
    (b"cas (1)", 7),
    (b"x", 0),
    (b"out (*)", 5),
    (b"out (?int)", 5),
    (b"rdp (?intx)", 9),
    (b"rdp (?txt)", 7),
    (b"rdp (?by", 8),
    (b"out (truefalse)", 9),
    (b"out (\"a\"\"b\")", 8),
    (b"out (\"\\x0a\")", 9),
    (b"out (\"\\x20\")", 8),
    (b"out (\"\\xA0\")", 8),
    (b"out (\"\xc3\")", 7),
    (b"out (x0)", 7),
    // Texts and byte strings that do not go on so; RFC 3629, section 4, for UTF-8.
    (b"out (\"abc", 9),
    (b"out (\"\t\"", 6),
    (b"out (\"\\t\"", 7),
    (b"out (\"\\x1F\"", 9),
    (b"out (\"\x80\"", 6),
    (b"out (\"\xC1\xBF\"", 6),
    (b"out (\"\xE0\x9F\xBF\"", 7),
    (b"out (\"\xED\xA0\x80\"", 7),
    (b"out (\"\xE2\x82\"", 8),
    (b"out (\"\xF0\x8F\xBF\xBF\"", 7),
    (b"out (\"\xF4\x90\x80\x80\"", 7),
    (b"out (\"\xF0\x9D\x84", 9),
    (b"out (\"\xF5\x80\x80\x80\"", 6),
    (b"out (x00fFx", 9),
    (b"out (w)", 6),
    (b"out (w01)", 7),
    (b"out (w-0)", 7),
    (b"out (w170141183460469231731687303715884105728)", 44),
    (b"out (w-170141183460469231731687303715884105729)", 45),
    (b"out (?wide)", 5),
    (b"rdp (?wid)", 9),
    // The offsets of these were computed by an independent reader of the same grammar.
    (b"i", 1),
    (b"in", 2),
    (b"inx (*)", 2),
    (b"inall 1 (*)", 2),
    (b"inA", 3),
    (b"inpAll 1 (*)", 3),
    (b"inp 1 (*)", 4),
    (b"inAl", 4),
    (b"inAl 1 (*)", 4),
    (b"inAll", 5),
    (b"inAll1 (*)", 5),
    (b"inAll ", 6),
    (b"inAll (*)", 6),
    (b"inAll 0 (*)", 6),
    (b"inAll 064 (*)", 6),
    (b"inAll 1", 7),
    (b"inAll 65 (*)", 7),
    (b"inAll 64(*)", 8),
    (b"inAll 640 (*)", 8),
    (b"inAll 1 (*", 10),
    (b"inAll 6 (*) (1)", 12),
    (b"Upgrade", 0),
    (b"up", 2),
    (b"upgrad", 6),
    (b"upgrade1", 7),
    (b"upgrade 1", 8),
    (b"upgrade (1)", 8),
];

// Whether the line is read as the operation of these bytes.
fn is_read(alloc: Global, line: &[u8], bytes: &[u8]) -> Result<bool, Fail> {
    let Some(op) = read_line(alloc, line)? else {
        return Ok(false);
    };
    // Dropped by a call: a drop at the function's end has a case for each kind of operation.
    let is_right = is_spelled(alloc, &op, bytes);
    drop(op);
    is_right
}

fn is_spelled(alloc: Global, op: &Op<Global>, bytes: &[u8]) -> Result<bool, Fail> {
    let mut out = Vec::new(alloc);
    encode_op(op, &mut out)?;
    Ok(out.as_slice() == bytes)
}

#[test]
fn reads_the_lines(rt: HostRuntime) -> Result<(), Fail> {
    for &(line, bytes) in &LINES {
        assert!(rt; is_read(rt.alloc(), line, bytes)?);
    }
    Ok(())
}

fn fault(alloc: Global, line: &[u8]) -> Option<LineFault> {
    read_line(alloc, line).err()
}

#[test]
fn stops_at_bad_bytes(rt: HostRuntime) {
    for &(line, offset) in &BAD_BYTES {
        let fault = fault(rt.alloc(), line);
        assert_eq!(rt; fault, Some(LineFault::BadByte { offset }), "{offset}");
    }
}

static SKIPPED: [&[u8]; 4] = [b"", b"   ", b"# out (1)", b"#"];

#[test]
fn skips_lines(rt: HostRuntime) {
    for &line in &SKIPPED {
        assert!(rt; matches!(read_line(rt.alloc(), line), Ok(None)));
    }
}

static TOO_DEEP: [&[u8]; 3] = [
    b"out (((((((((1)))))))))",
    b"inp ((((((((((x",
    b"inAll 3 (((((((((",
];

#[test]
fn a_ninth_level_is_too_deep(rt: HostRuntime) {
    for &line in &TOO_DEEP {
        assert!(rt; fault(rt.alloc(), line) == Some(LineFault::TooDeep));
    }
}

// The head, an item so many times, and the tail; with the fault of that line.
type Long<'a> = (&'a [u8], &'a [u8], usize, &'a [u8], Option<LineFault>);

static LONG: [Long<'static>; 16] = [
    // A 33rd item is too much. At one byte the levels come before the items.
    (b"out (", b"1 ", 32, b")", None),
    (b"out (", b"1 ", 33, b"", Some(LineFault::TooManyFields)),
    (b"rdp ((", b"* ", 32, b"()", Some(LineFault::TooManyFields)),
    (
        b"out (",
        b"1 ",
        32,
        b"*",
        Some(LineFault::BadByte { offset: 69 }),
    ),
    (b"out ((((((((", b"1 ", 32, b"(", Some(LineFault::TooDeep)),
    // An encoding of 1,025 bytes is too long.
    (b"out (\"", b"a", 1020, b"\")", None),
    (b"out (\"", b"a", 1021, b"\")", Some(LineFault::TooLong)),
    // The fault comes at the parenthesis: a byte before it decides first, one after it does not.
    (
        b"out (\"",
        b"a",
        1021,
        b"\"*",
        Some(LineFault::BadByte { offset: 1028 }),
    ),
    (b"cas (\"", b"a", 1021, b"\") (*", Some(LineFault::TooLong)),
    (b"cas () (\"", b"a", 1021, b"\")", Some(LineFault::TooLong)),
    (
        b"inAll 3 ((",
        b"1 ",
        33,
        b"",
        Some(LineFault::TooManyFields),
    ),
    (b"inAll 3 (\"", b"a", 1020, b"\")", None),
    (b"inAll 3 (\"", b"a", 1021, b"\")", Some(LineFault::TooLong)),
    // A nested list is not judged at its closing parenthesis.
    (
        b"out ((\"",
        b"a",
        1021,
        b"\")",
        Some(LineFault::BadByte { offset: 1030 }),
    ),
    // A line has at most 65,536 bytes.
    (b"out ()", b" ", 65530, b"", None),
    (
        b"out ()",
        b" ",
        65531,
        b"",
        Some(LineFault::BadByte { offset: 65536 }),
    ),
];

fn repeated(
    alloc: Global,
    head: &[u8],
    item: &[u8],
    count: usize,
    tail: &[u8],
) -> Result<Vec<u8>, AllocError> {
    let mut line = head.to_vec(alloc)?;
    for _i in 0..count {
        line.extend_from_slice(item)?;
    }
    line.extend_from_slice(tail)?;
    Ok(line)
}

fn fault_of(
    alloc: Global,
    (head, item, count, tail, _expected): Long<'_>,
) -> Result<Option<LineFault>, AllocError> {
    let line = repeated(alloc, head, item, count, tail)?;
    Ok(fault(alloc, &line))
}

#[test]
fn long_lines(rt: HostRuntime) -> Result<(), Fail> {
    for (number, &row) in LONG.iter().enumerate() {
        assert_eq!(rt; fault_of(rt.alloc(), row)?, row.4, "{number}");
    }
    Ok(())
}

// Whether the text is the template of the operation `inp` of these bytes.
fn is_template(alloc: Global, text: &[u8], bytes: &[u8]) -> Result<bool, Fail> {
    let template = read_template(alloc, text)?;
    is_spelled(alloc, &Op::Inp(template), bytes)
}

#[test]
fn reads_templates(rt: HostRuntime) -> Result<(), Fail> {
    let bytes = b"\x23\x03\x01\0\0\0\0\0\0\0\x01\x05\x01\x12\x10".as_slice();
    assert!(rt; is_template(rt.alloc(), b" (1 (?text) *) ", bytes)?);
    Ok(())
}

static BAD_TEMPLATES: [(&[u8], usize); 4] = [(b"", 0), (b"(1", 2), (b"(1))", 3), (b"(01)", 2)];

#[test]
fn templates_stop_at_bad_bytes(rt: HostRuntime) {
    for &(text, offset) in &BAD_TEMPLATES {
        let fault = read_template(rt.alloc(), text).err();
        assert_eq!(rt; fault, Some(LineFault::BadByte { offset }), "{offset}");
    }
}

// Whether the tuple of the operation is written as this text.
fn is_written(alloc: Global, op: &Op<Global>, text: &[u8]) -> Result<bool, Fail> {
    let Op::Out(tuple) = op else {
        return Ok(false);
    };
    let mut out = Vec::new(alloc);
    write_tuple(tuple, &mut out)?;
    Ok(out.as_slice() == text)
}

// Whether the line is read and its tuple written as this text.
fn is_written_again(alloc: Global, line: &[u8], text: &[u8]) -> Result<bool, Fail> {
    let Some(op) = read_line(alloc, line)? else {
        return Ok(false);
    };
    let is_right = is_written(alloc, &op, text);
    drop(op);
    is_right
}

#[test]
fn reads_what_is_written(rt: HostRuntime) -> Result<(), Fail> {
    let line = b"out (-1 \"\xc3\xa9\\x00\" (x0a ()) false)".as_slice();
    let text = b"(-1 \"\xc3\xa9\\x00\" (x0a ()) false)".as_slice();
    assert!(rt; is_written_again(rt.alloc(), line, text)?);
    Ok(())
}

// Lines as they are written.
static WRITTEN: [&[u8]; 10] = [
    b"out (-1 \"\xc3\xa9\\x00\" (x0a ()) false)",
    b"rdp (* ?int (?text ?bytes) ?bool ?tuple 2)",
    b"inp ()",
    b"cas (\"k\" *) (\"k\" -1)",
    b"rdAll 64 (* ())",
    b"rdAll 1 ((((((((?tuple))))))))",
    b"inAll 64 (* ())",
    b"inAll 2 (?wide (?wide))",
    b"upgrade",
    b"cas (?wide w-170141183460469231731687303715884105728) (w0 w170141183460469231731687303715884105727)",
];

// Whether the operation's line is written, at the second try if memory runs out at the first.
fn has_line(alloc: Global, op: &Op<Global>, line: &[u8]) -> bool {
    let mut out = Vec::new(alloc);
    let is_done = write_op(op, &mut out).is_ok()
        || out.is_empty() && write_op(op, &mut out).is_ok();
    is_done && out.as_slice() == line
}

fn read_again(alloc: Global, line: &[u8]) -> Result<Option<Op<Global>>, LineFault> {
    match read_line(alloc, line) {
        Err(LineFault::NoMemory) => read_line(alloc, line),
        first => first,
    }
}

fn line_again(alloc: Global, line: &[u8]) -> bool {
    let op = read_again(alloc, line);
    let is_right = matches!(&op, Ok(Some(op)) if has_line(alloc, op, line));
    drop(op);
    is_right
}

// Passes whichever growth is refused, as by `tools/growths`: the bytes are as before, and a second
// try gives the line.
#[test]
fn writes_lines(rt: HostRuntime) {
    for &line in &WRITTEN {
        assert!(rt; line_again(rt.alloc(), line), "{line:?}");
    }
}

// `tools/growths` refuses each growth in turn: the line is read, or memory runs out.
#[test]
fn reads_or_runs_out_of_memory(rt: HostRuntime) {
    match read_line(rt.alloc(), b"cas (1 (\"ab\" x00) *) (1 (\"ab\" x00) true)") {
        Ok(read) => assert!(rt; matches!(read, Some(Op::Cas(_, _)))),
        Err(fault) => assert!(rt; fault == LineFault::NoMemory),
    }
}
