//! The loop of a client's process, over a client that is made up.

use crate::readers::{Failing, Pieces};
use crate::writers::Sink;
use client_process::{Caller, ConverseFault, converse};
use events::{Output, Outputs, SharedBytes, Stop, emit};
use std::alloc::Global;
use std::cell::{Cell, RefCell};
use std::io::{self, ErrorKind, Read, Write};
use terms::{Party, ReplicaId, Timestamp};
use tuple_codec::{Answer, Op};

// Sends the number of its call to the replicas 0 to 3, and a byte to replica 1 when time went by. The frame `a` brings
// the answer that all is done, and `b` that nothing was found; it sends others to replica 2. Memory runs out at its
// step of this number.
#[derive(Drop)]
struct Made {
    calls: u8,
    steps: u64,
    last: u64,
}

impl Caller for Made {
    ghost me = { λ _. 0 };

    // Nothing is claimed of it.
    ghost fits = { λ _ _ _ _. ⊥ };

    fn call(&mut self, alloc: Global, op: Op<Global>) -> Result<Outputs, Stop> {
        drop(op);
        self.step()?;
        self.calls = self.calls.saturating_add(1);
        sent(alloc, &all(), &[self.calls])
    }

    fn got(&mut self, alloc: Global, frame: &[u8]) -> Result<Outputs, Stop> {
        self.step()?;
        match frame {
            [] => Ok(Vec::new(alloc)),
            b"a" => given(alloc, Output::Accepted(Timestamp(0), Answer::Done)),
            b"b" => given(alloc, Output::Accepted(Timestamp(0), Answer::Absent)),
            other => sent(alloc, &all()[2..3], other),
        }
    }

    fn retry(&mut self, alloc: Global) -> Result<Outputs, Stop> {
        self.step()?;
        sent(alloc, &all()[1..2], b"t")
    }

    ghost is_right = { λ caller c start history h. absurd h };
}

impl Made {
    fn step(&mut self) -> Result<(), Stop> {
        if self.steps >= self.last {
            return Err(Stop::NoMemory);
        }
        self.steps = self.steps.saturating_add(1);
        Ok(())
    }
}

fn all() -> [Party; 4] {
    [
        Party::Replica(ReplicaId(0)),
        Party::Replica(ReplicaId(1)),
        Party::Replica(ReplicaId(2)),
        Party::Replica(ReplicaId(3)),
    ]
}

fn sent(alloc: Global, receivers: &[Party], frame: &[u8]) -> Result<Outputs, Stop> {
    let receivers = receivers.to_vec(alloc)?;
    let bytes = frame.to_vec(alloc)?;
    given(alloc, Output::Send(receivers, SharedBytes::new(bytes)?))
}

fn given(alloc: Global, output: Output) -> Result<Outputs, Stop> {
    let mut outputs = Vec::new(alloc);
    emit(&mut outputs, output)?;
    Ok(outputs)
}

static SCRIPT: [u8; 57] = *b"# a comment\nout (1 2)\n\nrdp (1 ?int)\r\noops\ninp (3)\nout (4)";

// The records that it reads, and the texts that it then writes, by another implementation of the loop, in Python. In
// the first call: two links; timer 9; a frame; timer 1; `a`. In the second one: kind 9; the timers 2 to 7; an empty
// frame; `b`. In the third one: timer 8; `b`. In the fourth one: `a`. And a frame behind the last call.
static READ: [u8; 176] = [
    0x00, 0x00, 0x00, 0x02, 0x03, 0x02, 0x00, 0x00, 0x00, 0x09, 0x02, 0x00, 0x00, 0x00, 0x00, 0x00,
    0x00, 0x00, 0x09, 0x00, 0x00, 0x00, 0x03, 0x01, 0x7a, 0x7a, 0x00, 0x00, 0x00, 0x09, 0x02, 0x00,
    0x00, 0x00, 0x00, 0x00, 0x00, 0x00, 0x01, 0x00, 0x00, 0x00, 0x02, 0x01, 0x61, 0x00, 0x00, 0x00,
    0x03, 0x09, 0x3f, 0x3f, 0x00, 0x00, 0x00, 0x09, 0x02, 0x00, 0x00, 0x00, 0x00, 0x00, 0x00, 0x00,
    0x02, 0x00, 0x00, 0x00, 0x09, 0x02, 0x00, 0x00, 0x00, 0x00, 0x00, 0x00, 0x00, 0x03, 0x00, 0x00,
    0x00, 0x09, 0x02, 0x00, 0x00, 0x00, 0x00, 0x00, 0x00, 0x00, 0x04, 0x00, 0x00, 0x00, 0x09, 0x02,
    0x00, 0x00, 0x00, 0x00, 0x00, 0x00, 0x00, 0x05, 0x00, 0x00, 0x00, 0x09, 0x02, 0x00, 0x00, 0x00,
    0x00, 0x00, 0x00, 0x00, 0x06, 0x00, 0x00, 0x00, 0x09, 0x02, 0x00, 0x00, 0x00, 0x00, 0x00, 0x00,
    0x00, 0x07, 0x00, 0x00, 0x00, 0x01, 0x01, 0x00, 0x00, 0x00, 0x02, 0x01, 0x62, 0x00, 0x00, 0x00,
    0x09, 0x02, 0x00, 0x00, 0x00, 0x00, 0x00, 0x00, 0x00, 0x08, 0x00, 0x00, 0x00, 0x02, 0x01, 0x62,
    0x00, 0x00, 0x00, 0x02, 0x01, 0x61, 0x00, 0x00, 0x00, 0x06, 0x01, 0x6c, 0x61, 0x74, 0x65, 0x72,
];

static SENT: [u8; 294] = [
    0x00, 0x00, 0x00, 0x0b, 0x01, 0x04, 0x00, 0x00, 0x00, 0x01, 0x00, 0x02, 0x00, 0x03, 0x01, 0x00,
    0x00, 0x00, 0x0d, 0x02, 0x00, 0x00, 0x00, 0x00, 0x00, 0x00, 0x00, 0x01, 0x00, 0x00, 0x01, 0xf4,
    0x00, 0x00, 0x00, 0x06, 0x01, 0x01, 0x00, 0x02, 0x7a, 0x7a, 0x00, 0x00, 0x00, 0x05, 0x01, 0x01,
    0x00, 0x01, 0x74, 0x00, 0x00, 0x00, 0x0d, 0x02, 0x00, 0x00, 0x00, 0x00, 0x00, 0x00, 0x00, 0x02,
    0x00, 0x00, 0x03, 0xe8, 0x00, 0x00, 0x00, 0x0b, 0x01, 0x04, 0x00, 0x00, 0x00, 0x01, 0x00, 0x02,
    0x00, 0x03, 0x02, 0x00, 0x00, 0x00, 0x0d, 0x02, 0x00, 0x00, 0x00, 0x00, 0x00, 0x00, 0x00, 0x03,
    0x00, 0x00, 0x01, 0xf4, 0x00, 0x00, 0x00, 0x05, 0x01, 0x01, 0x00, 0x01, 0x74, 0x00, 0x00, 0x00,
    0x0d, 0x02, 0x00, 0x00, 0x00, 0x00, 0x00, 0x00, 0x00, 0x04, 0x00, 0x00, 0x03, 0xe8, 0x00, 0x00,
    0x00, 0x05, 0x01, 0x01, 0x00, 0x01, 0x74, 0x00, 0x00, 0x00, 0x0d, 0x02, 0x00, 0x00, 0x00, 0x00,
    0x00, 0x00, 0x00, 0x05, 0x00, 0x00, 0x07, 0xd0, 0x00, 0x00, 0x00, 0x05, 0x01, 0x01, 0x00, 0x01,
    0x74, 0x00, 0x00, 0x00, 0x0d, 0x02, 0x00, 0x00, 0x00, 0x00, 0x00, 0x00, 0x00, 0x06, 0x00, 0x00,
    0x0f, 0xa0, 0x00, 0x00, 0x00, 0x05, 0x01, 0x01, 0x00, 0x01, 0x74, 0x00, 0x00, 0x00, 0x0d, 0x02,
    0x00, 0x00, 0x00, 0x00, 0x00, 0x00, 0x00, 0x07, 0x00, 0x00, 0x1f, 0x40, 0x00, 0x00, 0x00, 0x05,
    0x01, 0x01, 0x00, 0x01, 0x74, 0x00, 0x00, 0x00, 0x0d, 0x02, 0x00, 0x00, 0x00, 0x00, 0x00, 0x00,
    0x00, 0x08, 0x00, 0x00, 0x1f, 0x40, 0x00, 0x00, 0x00, 0x0b, 0x01, 0x04, 0x00, 0x00, 0x00, 0x01,
    0x00, 0x02, 0x00, 0x03, 0x03, 0x00, 0x00, 0x00, 0x0d, 0x02, 0x00, 0x00, 0x00, 0x00, 0x00, 0x00,
    0x00, 0x09, 0x00, 0x00, 0x01, 0xf4, 0x00, 0x00, 0x00, 0x0b, 0x01, 0x04, 0x00, 0x00, 0x00, 0x01,
    0x00, 0x02, 0x00, 0x03, 0x04, 0x00, 0x00, 0x00, 0x0d, 0x02, 0x00, 0x00, 0x00, 0x00, 0x00, 0x00,
    0x00, 0x0a, 0x00, 0x00, 0x01, 0xf4,
];

static TOLD: [u8; 54] = *b"done\nabsent\n! line 5: refused 6 at byte 1\nabsent\ndone\n";

// Where the records end that are read, and how much is due of either text for all up to each.
static ENDS: [(usize, usize, usize); 18] = [
    (0, 32, 0),
    (6, 32, 0),
    (19, 32, 0),
    (26, 42, 0),
    (39, 68, 0),
    (45, 100, 5),
    (52, 100, 5),
    (65, 100, 5),
    (78, 126, 5),
    (91, 152, 5),
    (104, 178, 5),
    (117, 204, 5),
    (130, 230, 5),
    (135, 230, 5),
    (141, 262, 42),
    (154, 262, 42),
    (160, 294, 49),
    (166, 294, 54),
];

// How much is due of either text, if so many bytes of records were read.
fn due_for(len: usize) -> (usize, usize) {
    let mut due = (0, 0);
    for &(end, sent, told) in &ENDS {
        if end <= len {
            due = (sent, told);
        }
    }
    due
}

// Whether these are the texts that are due for so many bytes of records.
fn are_due(len: usize, sent: &[u8], told: &[u8]) -> bool {
    let (frames, results) = due_for(len);
    sent == &SENT[..frames.min(SENT.len())] && told == &TOLD[..results.min(TOLD.len())]
}

// How a session ends.
#[derive(Clone, Copy, PartialEq, Eq)]
enum End {
    AtEnd,
    Memory,
    Records,
    Reading,
    Writing,
    Other,
}

fn end_of(ended: Result<(), ConverseFault>) -> End {
    match ended {
        Ok(()) => End::AtEnd,
        Err(ConverseFault::NoMemory) => End::Memory,
        Err(ConverseFault::Unanswered) => End::Records,
        Err(ConverseFault::Read(_)) => End::Reading,
        Err(ConverseFault::Write(_)) => End::Writing,
        Err(_) => End::Other,
    }
}

// A session: over so many bytes of the records, so many of either input at a time; to writers that take so many at a
// time, and so many at most; and memory runs out at the client's step of this number.
#[derive(Clone, Copy)]
struct Case {
    len: usize,
    read: usize,
    written: usize,
    most_frames: usize,
    most_results: usize,
    last: u64,
}

const WHOLE: Case = Case {
    len: 176,
    read: 176,
    written: 294,
    most_frames: 294,
    most_results: 54,
    last: 99,
};

// Whether the session ends so, and the texts are as they should be.
fn goes<P: FnOnce(&[u8], &[u8]) -> bool>(alloc: Global, case: Case, end: End, is_right: P) -> bool
    requires { P.IsAlwaysCallable is_right }
{
    let script = Pieces {
        left: &SCRIPT,
        step: case.read,
    };
    let records = Pieces {
        left: &READ[..case.len.min(READ.len())],
        step: case.read,
    };
    let made = Made {
        calls: 0,
        steps: 0,
        last: case.last,
    };
    let mut frames = Sink {
        taken: Vec::new(alloc),
        step: case.written,
        most: case.most_frames,
    };
    let mut results = Sink {
        taken: Vec::new(alloc),
        step: case.written,
        most: case.most_results,
    };
    let ended = end_of(converse(alloc, made, script, records, &mut frames, &mut results));
    ended == end && is_right(frames.taken.as_slice(), results.taken.as_slice())
}

#[test]
fn pieces_of_any_length_give_the_same(rt: HostRuntime) {
    let alloc = rt.alloc();
    for step in 1..177 {
        let read = Case {
            read: step,
            ..WHOLE
        };
        let is_right = goes(
            alloc,
            read,
            End::AtEnd,
            |sent, told| are_due(176, sent, told),
        );
        assert!(rt; is_right, "{step} bytes are read at a time");
        let written = Case {
            written: step,
            ..WHOLE
        };
        let is_right = goes(
            alloc,
            written,
            End::AtEnd,
            |sent, told| are_due(176, sent, told),
        );
        assert!(rt; is_right, "{step} are written at a time");
    }
}

#[test]
fn records_end_anywhere(rt: HostRuntime) {
    let alloc = rt.alloc();
    for len in 0..177 {
        let cut = Case { len, ..WHOLE };
        // Behind the fourth answer, at byte 166, nothing is read.
        let end = if len < 166 { End::Records } else { End::AtEnd };
        let is_right = goes(alloc, cut, end, |sent, told| are_due(len, sent, told));
        assert!(rt; is_right, "{len} bytes");
    }
}

#[test]
fn a_writer_fails_behind_a_front(rt: HostRuntime) {
    let alloc = rt.alloc();
    for most in 0..294 {
        let failing = Case {
            most_frames: most,
            read: 7,
            ..WHOLE
        };
        let front = &SENT[..most.min(294)];
        let is_right = goes(alloc, failing, End::Writing, |sent, told| {
            sent == front && TOLD.starts_with(told)
        });
        assert!(rt; is_right, "{most} bytes of records");
    }
    for most in 0..54 {
        let failing = Case {
            most_results: most,
            read: 7,
            ..WHOLE
        };
        let front = &TOLD[..most.min(54)];
        let is_right = goes(alloc, failing, End::Writing, |sent, told| {
            told == front && SENT.starts_with(sent)
        });
        assert!(rt; is_right, "{most} bytes of results");
    }
}

// Whether a session ends so over readers that are interrupted, and that fail behind so many bytes of the script and of
// the records; and whether so much of either text is written.
fn fails(alloc: Global, script: usize, records: usize, sent: usize, told: usize) -> bool {
    let script = Failing {
        left: &SCRIPT[..script.min(57)],
        is_interrupted: false,
    };
    let records = Failing {
        left: &READ[..records.min(176)],
        is_interrupted: false,
    };
    let made = Made {
        calls: 0,
        steps: 0,
        last: 99,
    };
    let mut frames = Vec::new(alloc);
    let mut results = Vec::new(alloc);
    let ended = end_of(converse(alloc, made, script, records, &mut frames, &mut results));
    ended == End::Reading
        && frames.as_slice() == &SENT[..sent.min(294)]
        && results.as_slice() == &TOLD[..told.min(54)]
}

#[test]
fn readers_fail(rt: HostRuntime) {
    let alloc = rt.alloc();
    assert!(rt; fails(alloc, 0, 0, 0, 0), "at once");
    assert!(rt; fails(alloc, 50, 176, 262, 49), "behind the sixth line");
    assert!(rt; fails(alloc, 55, 176, 262, 49), "within the seventh line");
    assert!(rt; fails(alloc, 57, 141, 262, 42), "in the third call");
    assert!(rt; fails(alloc, 57, 143, 262, 42), "within a record");
}

// Steps of the client for records, counted from 0, and how many bytes of records were read before each.
static STEPS: [(u64, usize); 12] = [
    (1, 19),
    (2, 26),
    (3, 39),
    (5, 65),
    (6, 78),
    (7, 91),
    (8, 104),
    (9, 117),
    (10, 130),
    (11, 135),
    (13, 154),
    (15, 160),
];

#[test]
fn want_of_memory_stops_it_between_inputs(rt: HostRuntime) {
    let alloc = rt.alloc();
    let first = Case { last: 0, ..WHOLE };
    assert!(rt;
        goes(
            alloc,
            first,
            End::Memory,
            |sent, told| sent.is_empty() && told.is_empty()
        )
    );
    for &(last, len) in &STEPS {
        let case = Case { last, ..WHOLE };
        let is_right = goes(
            alloc,
            case,
            End::Memory,
            |sent, told| are_due(len, sent, told),
        );
        assert!(rt; is_right, "step {last}");
    }
}

// A record of no bytes, two of kinds that there aren't, and an answer; and then one that says to have 4,294,967,295
// bytes.
static STRANGE: [u8; 29] = [
    0x00, 0x00, 0x00, 0x00, 0x00, 0x00, 0x00, 0x02, 0x00, 0x61, 0x00, 0x00, 0x00, 0x03, 0x80, 0x01,
    0x61, 0x00, 0x00, 0x00, 0x02, 0x01, 0x61, 0xff, 0xff, 0xff, 0xff, 0x01, 0x61,
];

// Whether the first call passes over what tells nothing, and the second one gets no answer.
fn passes_over(alloc: Global) -> bool {
    let script = Pieces {
        left: b"out (1)\nout (2)",
        step: 15,
    };
    let records = Pieces {
        left: &STRANGE,
        step: 29,
    };
    let made = Made {
        calls: 0,
        steps: 0,
        last: 99,
    };
    let mut frames = Vec::new(alloc);
    let mut results = Vec::new(alloc);
    let ended = end_of(converse(alloc, made, script, records, &mut frames, &mut results));
    ended == End::Records && results.as_slice() == b"done\n".as_slice()
}

#[test]
fn what_tells_nothing_is_passed_over(rt: HostRuntime) {
    assert!(rt; passes_over(rt.alloc()));
}

// What was flushed of either text, and whether it was all that was due at each read.
#[derive(Drop)]
struct Shown {
    sent: RefCell<Vec<u8>>,
    told: RefCell<Vec<u8>>,
    is_right: Cell<bool>,
}

impl Shown {
    fn new(alloc: Global) -> Shown {
        Shown {
            sent: RefCell::new(Vec::new(alloc)),
            told: RefCell::new(Vec::new(alloc)),
            is_right: Cell::new(true),
        }
    }

    // Whether these are the texts that are due for so many bytes of records.
    fn is_due(&self, len: usize) -> bool {
        match (self.sent.try_borrow(), self.told.try_borrow()) {
            (Ok(sent), Ok(told)) => are_due(len, sent.as_slice(), told.as_slice()),
            _ => false,
        }
    }

    // Whether so many bytes of results were flushed.
    fn has_told(&self, len: usize) -> bool {
        match self.told.try_borrow() {
            Ok(told) => told.len() == len,
            Err(_) => false,
        }
    }
}

// Gives a byte of the records at a time, and looks whether all that is due for those before was flushed.
#[derive(Drop)]
struct AskingRecords<'a> {
    given: usize,
    shown: &'a Shown,
}

impl Read for AskingRecords<'_> {
    fn read(&mut self, buf: &mut [u8]) -> io::Result<usize> {
        if !self.shown.is_due(self.given) {
            self.shown.is_right.set(false);
        }
        let from = self.given.min(READ.len());
        let to = from.saturating_add(1).min(READ.len());
        let mut piece = &READ[from..to];
        let count = piece.read(buf)?;
        self.given = from + count;
        Ok(count)
    }
}

// Where the lines of the script end, and how many bytes of results are due for all up to each.
static LINES: [(usize, usize); 7] = [
    (12, 0),
    (22, 5),
    (23, 5),
    (37, 12),
    (42, 42),
    (50, 49),
    (57, 54),
];

fn results_for(len: usize) -> usize {
    let mut due = 0;
    for &(end, told) in &LINES {
        if end <= len {
            due = told;
        }
    }
    due
}

// Gives a byte of the script at a time, and looks whether the results of all lines before were flushed. The last line
// has no end but the script's.
#[derive(Drop)]
struct AskingLines<'a> {
    given: usize,
    shown: &'a Shown,
}

impl Read for AskingLines<'_> {
    fn read(&mut self, buf: &mut [u8]) -> io::Result<usize> {
        if self.given < 57 && !self.shown.has_told(results_for(self.given)) {
            self.shown.is_right.set(false);
        }
        let from = self.given.min(SCRIPT.len());
        let to = from.saturating_add(1).min(SCRIPT.len());
        let mut piece = &SCRIPT[from..to];
        let count = piece.read(buf)?;
        self.given = from + count;
        Ok(count)
    }
}

// Shows nothing before it is flushed.
#[derive(Drop)]
struct Flushed<'a> {
    held: Vec<u8>,
    shown: &'a RefCell<Vec<u8>>,
}

impl Write for Flushed<'_> {
    fn write(&mut self, buf: &[u8]) -> io::Result<usize> {
        self.held.write(buf)
    }

    fn flush(&mut self) -> io::Result<()> {
        match self.shown.try_borrow_mut() {
            Ok(mut shown) => shown.write_all(self.held.as_slice())?,
            Err(_) => return Err(io::Error::from(ErrorKind::ResourceBusy)),
        }
        self.held.clear();
        Ok(())
    }
}

// Whether nothing is held back at a read of either input.
fn answers_first(alloc: Global) -> bool {
    let shown = Shown::new(alloc);
    let script = AskingLines {
        given: 0,
        shown: &shown,
    };
    let records = AskingRecords {
        given: 0,
        shown: &shown,
    };
    let mut frames = Flushed {
        held: Vec::new(alloc),
        shown: &shown.sent,
    };
    let mut results = Flushed {
        held: Vec::new(alloc),
        shown: &shown.told,
    };
    let made = Made {
        calls: 0,
        steps: 0,
        last: 99,
    };
    let ended = end_of(converse(alloc, made, script, records, &mut frames, &mut results));
    ended == End::AtEnd && shown.is_right.get() && shown.is_due(176)
}

#[test]
fn all_is_written_before_it_waits(rt: HostRuntime) {
    assert!(rt; answers_first(rt.alloc()));
}
