//! Lines that are steps, and lines that are none.

use schedule_text::{Argument, MAX_STEP, Reason, Step, StepFault, read_step};
use std::alloc::{AllocError, Global};
use std::test::Fail;
use terms::{NoMemory, Party};
use tuple_codec::{Op, encode_op};
use tuple_text::LineFault;

// Lines, and their steps: the number of the step's kind, its numbers and parties, and its bytes.
static STEPS: [(&[u8], u8, &[u64], &[u8]); 19] = [
    (b"invoke 0 out ()", 0, &[0], b"\x21\0"),
    (b"  invoke  255   rdp  ( * )  ", 0, &[255], b"\x22\x01\x10"),
    (b"invoke 0 rdAll 64 (*)", 0, &[0], b"\x25\x40\x01\x10"),
    (b"deliver 0 r0", 1, &[0, 0], b""),
    (
        b"deliver 18446744073709551615 c255 ",
        1,
        &[18446744073709551615, 511],
        b"",
    ),
    (b" deliver  7  r9", 1, &[7, 9], b""),
    (b"bytes c0 00fF", 2, &[256], b"\x00\xff"),
    (b"bytes r3 ab", 2, &[3], b"\xab"),
    (b"seal r3 r0 41", 3, &[3, 0], b"\x41"),
    (
        b"seal c1 r0,r1,c0,c255 4142",
        3,
        &[257, 0, 1, 256, 511],
        b"\x41\x42",
    ),
    (b"seal c1 r1,r0,r0 41", 3, &[257, 1, 0, 0], b"\x41"),
    (b"sign r3 0 r0,r1 46", 4, &[3, 0, 0, 1], b"\x46"),
    (b"sign r3 63 r0 46", 4, &[3, 63, 0], b"\x46"),
    (b"tick r0", 5, &[0], b""),
    (b"tick c10", 5, &[266], b""),
    (b"tick r255", 5, &[255], b""),
    (b"tick c65279", 5, &[65535], b""),
    (b"flush", 6, &[], b""),
    (b"   flush   ", 6, &[], b""),
];

static SKIPPED: [&[u8]; 5] = [b"", b" ", b"     ", b"#", b"# flush"];

// Lines, the byte at which each shows to be none, and why.
// Lines, the byte at which each shows to be none, and why.
static REFUSED: [(&[u8], usize, Reason); 62] = [
    (b" # flush", 1, Reason::UnknownName),
    (b"Flush", 0, Reason::UnknownName),
    (b"flushh", 0, Reason::UnknownName),
    (b"flush now", 6, Reason::SpareWord),
    (b"flush\r", 0, Reason::UnknownName),
    (b"flush\t", 0, Reason::UnknownName),
    (b"tick", 4, Reason::Missing(Argument::Party)),
    (b"tick  ", 6, Reason::Missing(Argument::Party)),
    (b"tick r0 r1", 8, Reason::SpareWord),
    (b"tick x0", 5, Reason::NoParty(Argument::Party)),
    (b"tick R0", 5, Reason::NoParty(Argument::Party)),
    (b"tick r", 5, Reason::NoParty(Argument::Party)),
    (b"tick r01", 5, Reason::NoParty(Argument::Party)),
    (b"tick r+1", 5, Reason::NoParty(Argument::Party)),
    (b"tick r-1", 5, Reason::NoParty(Argument::Party)),
    (b"tick r256", 5, Reason::NoParty(Argument::Party)),
    (b"tick c65280", 5, Reason::NoParty(Argument::Party)),
    (
        b"tick r99999999999999999999",
        5,
        Reason::NoParty(Argument::Party),
    ),
    (b"tick 0", 5, Reason::NoParty(Argument::Party)),
    (b"deliver 0", 9, Reason::Missing(Argument::Party)),
    (b"deliver r0 0", 8, Reason::NoNumber(Argument::Frame)),
    (b"deliver 00 r0", 8, Reason::NoNumber(Argument::Frame)),
    (b"deliver -1 r0", 8, Reason::NoNumber(Argument::Frame)),
    (b"deliver +1 r0", 8, Reason::NoNumber(Argument::Frame)),
    (
        b"deliver 18446744073709551616 r0",
        8,
        Reason::NoNumber(Argument::Frame),
    ),
    (b"deliver 0 r0 1", 13, Reason::SpareWord),
    (b"deliver 0 r0,r1", 10, Reason::NoParty(Argument::Party)),
    (b"deliver0 r0", 0, Reason::UnknownName),
    (b"bytes r0", 8, Reason::Missing(Argument::Hex)),
    (b"bytes r0 0", 9, Reason::OddDigits),
    (b"bytes r0 0g", 10, Reason::NoDigit),
    (b"bytes r0 0g0", 9, Reason::OddDigits),
    (b"bytes r0 00 00", 12, Reason::SpareWord),
    (b"bytes 00", 6, Reason::NoParty(Argument::Party)),
    (b"seal r0 r1", 10, Reason::Missing(Argument::Hex)),
    (b"seal r0 r1, 00", 11, Reason::NoParty(Argument::Parties)),
    (b"seal r0 ,r1 00", 8, Reason::NoParty(Argument::Parties)),
    (b"seal r0 r1,,r2 00", 11, Reason::NoParty(Argument::Parties)),
    (b"seal r0 r1 r2 00", 11, Reason::NoDigit),
    (b"seal r0 r1, r2 00", 11, Reason::NoParty(Argument::Parties)),
    (b"seal r0 , 00", 8, Reason::NoParty(Argument::Parties)),
    (b"seal r0  00", 9, Reason::NoParty(Argument::Parties)),
    (b"seal r0 r1 00 00", 14, Reason::SpareWord),
    (b"sign r0 r1 00", 8, Reason::NoNumber(Argument::Leaf)),
    (b"sign r0 00 r1 00", 8, Reason::NoNumber(Argument::Leaf)),
    (b"sign r0 0 r1", 12, Reason::Missing(Argument::Hex)),
    (b"sign r0 0 r1 00 1", 16, Reason::SpareWord),
    (b"invoke", 6, Reason::Missing(Argument::Client)),
    (b"invoke 0", 8, Reason::Missing(Argument::Line)),
    (b"invoke 0 ", 9, Reason::Missing(Argument::Line)),
    (b"invoke 0 # x", 9, Reason::Missing(Argument::Line)),
    (b"invoke c0 out (1)", 7, Reason::NoNumber(Argument::Client)),
    (b"invoke 01 out (1)", 7, Reason::NoNumber(Argument::Client)),
    (
        b"invoke 65280 out (1)",
        7,
        Reason::NoNumber(Argument::Client),
    ),
    (
        b"invoke 0 out (1",
        9,
        Reason::Operation(LineFault::BadByte { offset: 6 }),
    ),
    (
        b"invoke 0 rdAll 65 (*)",
        9,
        Reason::Operation(LineFault::BadByte { offset: 7 }),
    ),
    (
        b"invoke 0 out (1) (2)",
        9,
        Reason::Operation(LineFault::BadByte { offset: 8 }),
    ),
    (
        b"  invoke  0   out (((((((((1)))))))))",
        14,
        Reason::Operation(LineFault::TooDeep),
    ),
    (b"invoke out (1)", 7, Reason::NoNumber(Argument::Client)),
    (b"invoke0 out (1)", 0, Reason::UnknownName),
    (b"\xff", 0, Reason::UnknownName),
    (b"tick r\xff", 5, Reason::NoParty(Argument::Party)),
];

fn party_number(party: &Party) -> u64 {
    u64::from(party.number())
}

fn push_all(numbers: &mut Vec<u64>, parties: &[Party]) -> Result<(), AllocError> {
    for party in parties {
        numbers.push(party_number(party))?;
    }
    Ok(())
}

fn kind_of(step: &Step) -> u8 {
    match step {
        Step::Invoke { .. } => 0,
        Step::Deliver { .. } => 1,
        Step::Feed { .. } => 2,
        Step::Seal { .. } => 3,
        Step::Sign { .. } => 4,
        Step::Tick { .. } => 5,
        Step::Flush => 6,
    }
}

fn push_behind(numbers: &mut Vec<u64>, first: &[u64], parties: &[Party]) -> Result<(), AllocError> {
    numbers.extend_from_slice(first)?;
    push_all(numbers, parties)
}

// The numbers and parties of the step.
fn push_numbers(numbers: &mut Vec<u64>, step: &Step) -> Result<(), AllocError> {
    match step {
        Step::Invoke { client, .. } => push_behind(numbers, &[u64::from(client.number)], &[]),
        Step::Deliver { frame, party } => push_behind(numbers, &[*frame, party_number(party)], &[]),
        Step::Feed { party, .. } => push_behind(numbers, &[party_number(party)], &[]),
        Step::Seal {
            sender,
            receivers,
            ..
        } => push_behind(numbers, &[party_number(sender)], receivers.as_slice()),
        Step::Sign {
            signer,
            leaf,
            receivers,
            ..
        } => push_behind(
            numbers,
            &[party_number(signer), *leaf],
            receivers.as_slice(),
        ),
        Step::Tick { party } => push_behind(numbers, &[party_number(party)], &[]),
        Step::Flush => Ok(()),
    }
}

fn has_numbers(alloc: Global, step: &Step, numbers: &[u64]) -> Result<bool, AllocError> {
    let mut found = Vec::new(alloc);
    push_numbers(&mut found, step)?;
    Ok(found.as_slice() == numbers)
}

fn is_spelled(alloc: Global, op: &Op<Global>, bytes: &[u8]) -> Result<bool, NoMemory> {
    let mut out = Vec::new(alloc);
    encode_op(op, &mut out)?;
    Ok(out.as_slice() == bytes)
}

// Whether these are the bytes of the step, of a call those of its operation.
fn has_bytes(alloc: Global, step: &Step, bytes: &[u8]) -> Result<bool, NoMemory> {
    match step {
        Step::Invoke { op, .. } => is_spelled(alloc, op, bytes),
        Step::Feed { bytes: text, .. } => Ok(text.as_slice() == bytes),
        Step::Seal { body, .. } => Ok(body.as_slice() == bytes),
        Step::Sign { body, .. } => Ok(body.as_slice() == bytes),
        _ => Ok(bytes.is_empty()),
    }
}

fn is_step(
    alloc: Global,
    step: &Step,
    kind: u8,
    numbers: &[u64],
    bytes: &[u8],
) -> Result<bool, Fail> {
    Ok(
        kind_of(step) == kind
            && has_numbers(alloc, step, numbers)?
            && has_bytes(alloc, step, bytes)?,
    )
}

fn gives(
    alloc: Global,
    line: &[u8],
    kind: u8,
    numbers: &[u64],
    bytes: &[u8],
) -> Result<bool, Fail> {
    let Some(step) = read_step(alloc, line)? else {
        return Ok(false);
    };
    // Dropped by a call: a drop at the function's end has a case for each kind of step.
    let is_right = is_step(alloc, &step, kind, numbers, bytes);
    drop(step);
    is_right
}

fn is_skipped(alloc: Global, line: &[u8]) -> bool {
    match read_step(alloc, line) {
        Ok(None) => true,
        _ => false,
    }
}

#[test]
fn reads_steps(rt: HostRuntime) -> Result<(), Fail> {
    for &(line, kind, numbers, bytes) in &STEPS {
        assert!(rt; gives(rt.alloc(), line, kind, numbers, bytes)?, "{line:?}");
    }
    Ok(())
}

#[test]
fn skips_lines(rt: HostRuntime) {
    for &line in &SKIPPED {
        assert!(rt; is_skipped(rt.alloc(), line), "{line:?}");
    }
}

#[test]
fn refuses_lines(rt: HostRuntime) {
    for &(line, byte, reason) in &REFUSED {
        let fault = read_step(rt.alloc(), line).err();
        assert_eq!(rt;
            fault,
            Some(StepFault::Refused { byte, reason }),
            "{line:?}"
        );
    }
}

// Bytes for replica 0, with so many digits, after a blank.
fn long_line(alloc: Global, digits: usize) -> Result<Vec<u8>, AllocError> {
    let mut line = Vec::from_slice(alloc, b" bytes r0 ")?;
    line.resize(10usize.saturating_add(digits), b'0')?;
    Ok(line)
}

// The longest line has as many bytes as `bytes c65279`, a blank, and two digits for each of 4,194,304 bytes.
fn is_too_long(alloc: Global, digits: usize) -> Result<bool, AllocError> {
    let line = long_line(alloc, digits)?;
    match read_step(alloc, line.as_slice()) {
        Err(StepFault::NoMemory) => Err(AllocError),
        Err(StepFault::Refused { byte, reason }) => Ok(byte == 1 && reason == Reason::TooLong),
        Ok(_) => Ok(false),
    }
}

#[test]
fn refuses_what_is_too_long(rt: HostRuntime) -> Result<(), Fail> {
    assert_eq!(rt; MAX_STEP, 13 + 2 * 4_194_304);
    assert!(rt; !is_too_long(rt.alloc(), MAX_STEP - 9)?);
    assert!(rt; is_too_long(rt.alloc(), MAX_STEP - 8)?);
    Ok(())
}

fn read_again(alloc: Global, line: &[u8]) -> Result<Option<Step>, StepFault> {
    match read_step(alloc, line) {
        Err(StepFault::NoMemory) => read_step(alloc, line),
        first => first,
    }
}

fn is_call(step: &Step) -> bool {
    matches!(step, Step::Invoke { client, .. } if client.number == 3)
}

fn is_seal(step: &Step) -> bool {
    match step {
        Step::Seal {
            sender,
            receivers,
            body,
        } => {
            sender.number() == 257
                && receivers.len() == 3
                && body.as_slice() == b"\x41\x42".as_slice()
        }
        _ => false,
    }
}

fn reads_call(alloc: Global) -> bool {
    let step = read_again(alloc, b"invoke 3 cas (\"k\" *) (\"k\" (1 x00ff))");
    let is_right = matches!(&step, Ok(Some(step)) if is_call(step));
    drop(step);
    is_right
}

fn reads_seal(alloc: Global) -> bool {
    let step = read_again(alloc, b"seal c1 r0,r1,c0 4142");
    let is_right = matches!(&step, Ok(Some(step)) if is_seal(step));
    drop(step);
    is_right
}

fn refuses_half_a_byte(alloc: Global) -> bool {
    let fault = StepFault::Refused {
        byte: 17,
        reason: Reason::OddDigits,
    };
    read_again(alloc, b"seal c1 r0,r1,c0 414").err() == Some(fault)
}

// Passes whichever growth is refused, as by `tools/growths`: a second try gives the same as the first one gives if
// nothing is refused.
#[test]
fn refused_memory(rt: HostRuntime) {
    assert!(rt; reads_call(rt.alloc()));
    assert!(rt; reads_seal(rt.alloc()));
    assert!(rt; refuses_half_a_byte(rt.alloc()));
}
