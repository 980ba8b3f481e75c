//! Records that are read.

use crate::readers::{Failing, Filled, Pieces};
use records::{MAX_RECORD, Notice, RecordReader};
use std::alloc::Global;
use std::io::{ErrorKind, Read};

// Made by Python's struct: for each record '>IB' of the length and the kind, and its content. A frame of three bytes;
// the timer 7; two links; kind 4; a length of 0; a timer of seven bytes, and one of nine; an empty frame; links of two
// bytes, and of none; kinds 0 and 255; the timer 2^64 - 1; a frame that has the bytes of a record.
static INPUT: [u8; 117] = [
    0x00, 0x00, 0x00, 0x04, 0x01, 0xa1, 0xb2, 0xc3, 0x00, 0x00, 0x00, 0x09, 0x02, 0x00, 0x00, 0x00,
    0x00, 0x00, 0x00, 0x00, 0x07, 0x00, 0x00, 0x00, 0x02, 0x03, 0x02, 0x00, 0x00, 0x00, 0x03, 0x04,
    0xff, 0xff, 0x00, 0x00, 0x00, 0x00, 0x00, 0x00, 0x00, 0x08, 0x02, 0x00, 0x00, 0x00, 0x00, 0x00,
    0x00, 0x00, 0x00, 0x00, 0x00, 0x0a, 0x02, 0x00, 0x00, 0x00, 0x00, 0x00, 0x00, 0x00, 0x00, 0x00,
    0x00, 0x00, 0x00, 0x01, 0x01, 0x00, 0x00, 0x00, 0x03, 0x03, 0x02, 0x02, 0x00, 0x00, 0x00, 0x01,
    0x03, 0x00, 0x00, 0x00, 0x03, 0x00, 0x01, 0x00, 0x00, 0x00, 0x00, 0x01, 0xff, 0x00, 0x00, 0x00,
    0x09, 0x02, 0xff, 0xff, 0xff, 0xff, 0xff, 0xff, 0xff, 0xff, 0x00, 0x00, 0x00, 0x07, 0x01, 0x00,
    0x00, 0x00, 0x02, 0x03, 0x01,
];

// Where each of these records ends, and what it tells.
static ROWS: [(usize, Option<Notice<'static>>); 14] = [
    (8, Some(Notice::Came(&[0xa1, 0xb2, 0xc3]))),
    (21, Some(Notice::TimerOver(7))),
    (27, Some(Notice::Linked(2))),
    (34, None),
    (38, None),
    (50, None),
    (64, None),
    (69, Some(Notice::Came(&[]))),
    (76, None),
    (81, None),
    (88, None),
    (93, None),
    (106, Some(Notice::TimerOver(0xffff_ffff_ffff_ffff))),
    (117, Some(Notice::Came(&[0, 0, 0, 2, 3, 1]))),
];

// Whether the next record tells this.
fn tells<R: Read + Drop>(records: &mut RecordReader<R>, told: &Option<Notice<'_>>) -> bool {
    matches!(records.advance(), Ok(true)) && records.notice() == *told
}

// Whether no record is left, and nothing is told then.
fn is_at_end<R: Read + Drop>(records: &mut RecordReader<R>) -> bool {
    matches!(records.advance(), Ok(false)) && records.notice().is_none()
}

// Whether the first bytes of the input, so many at a time, are the records that end in them, and no others.
fn is_front(alloc: Global, len: usize, step: usize) -> bool {
    let left = &INPUT[..len.min(INPUT.len())];
    let Ok(mut records) = RecordReader::new(alloc, Pieces { left, step }) else {
        return false;
    };
    for (end, told) in &ROWS {
        if *end <= len && !tells(&mut records, told) {
            return false;
        }
    }
    is_at_end(&mut records)
}

#[test]
fn records_are_cut_anywhere(rt: HostRuntime) {
    for len in 0..118 {
        assert!(rt; is_front(rt.alloc(), len, 117), "{len} bytes at once");
        assert!(rt; is_front(rt.alloc(), len, 1), "{len} bytes, one at a time");
    }
}

#[test]
fn pieces_of_any_length_tell_the_same(rt: HostRuntime) {
    for step in 1..118 {
        assert!(rt; is_front(rt.alloc(), 117, step), "{step} bytes at a time");
    }
}

// Whether a record of this length, of kind 1 and ones, tells a frame or nothing, and the next one tells a link.
fn is_passed(alloc: Global, length: u32, is_frame: bool) -> bool {
    let filled = Filled {
        first: &length.to_be_bytes(),
        ones: length as usize,
        last: &[0, 0, 0, 2, 3, 1],
    };
    let Ok(mut records) = RecordReader::new(alloc, filled) else {
        return false;
    };
    let is_right = matches!(records.advance(), Ok(true)) && has_frame(&records) == is_frame;
    is_right && tells(&mut records, &Some(Notice::Linked(1))) && is_at_end(&mut records)
}

fn has_frame<R: Read + Drop>(records: &RecordReader<R>) -> bool {
    match records.notice() {
        Some(Notice::Came(frame)) => frame.len() == MAX_RECORD - 1,
        _ => false,
    }
}

#[test]
fn the_longest_record_is_read(rt: HostRuntime) {
    assert!(rt; is_passed(rt.alloc(), 4_194_305, true));
}

#[test]
fn longer_records_are_passed_over(rt: HostRuntime) {
    assert!(rt; is_passed(rt.alloc(), 4_194_306, false));
    assert!(rt; is_passed(rt.alloc(), 0x0100_0000, false));
}

#[test]
fn the_longest_length_is_no_whole_record(rt: HostRuntime) {
    let filled = Filled {
        first: &[0xff, 0xff, 0xff, 0xff],
        ones: 5_000_000,
        last: &[],
    };
    let is_right = match RecordReader::new(rt.alloc(), filled) {
        Ok(mut records) => is_at_end(&mut records),
        Err(_) => false,
    };
    assert!(rt; is_right);
}

// Whether the input is read through interruptions, up to the error at its end.
fn ends_with_error(alloc: Global) -> bool {
    let failing = Failing {
        left: &INPUT,
        is_interrupted: false,
    };
    let Ok(mut records) = RecordReader::new(alloc, failing) else {
        return false;
    };
    for (_, told) in &ROWS {
        if !tells(&mut records, told) {
            return false;
        }
    }
    match records.advance() {
        Ok(_) => false,
        Err(error) => error.kind() == ErrorKind::ConnectionReset,
    }
}

#[test]
fn errors_come_behind_the_records_before(rt: HostRuntime) {
    assert!(rt; ends_with_error(rt.alloc()));
}

// Whether a record is at hand exactly if the reader gave all of it with the record before.
fn is_at_hand_whole(alloc: Global) -> bool {
    let pieces = Pieces {
        left: &INPUT,
        step: 21,
    };
    let Ok(mut records) = RecordReader::new(alloc, pieces) else {
        return false;
    };
    let before = records.is_at_hand();
    let first = tells(&mut records, &ROWS[0].1) && records.is_at_hand();
    let second = tells(&mut records, &ROWS[1].1) && records.is_at_hand();
    first && !before && !second
}

#[test]
fn records_are_at_hand_once_they_came(rt: HostRuntime) {
    assert!(rt; is_at_hand_whole(rt.alloc()));
}
