//! The loop of a replica's process, over a replica that echoes.

use crate::readers::Pieces;
use events::{Output, Outputs, SharedBytes, Stop, emit};
use patience::Standing;
use replica_process::{Machine, ServeFault, serve};
use std::alloc::Global;
use std::cell::{Cell, RefCell};
use std::io::{self, ErrorKind, Read, Write};
use terms::{ClientId, Party, ReplicaId, Timestamp};

// Sends each frame to replica 1 and client 0, and a byte to replica 2 at a timeout. It waits for a request that is
// another one after each frame. Memory runs out at the frame of this number.
#[derive(Drop)]
struct Echo {
    frames: u64,
    last: u64,
}

impl Machine for Echo {
    ghost me = { λ _. 0 };

    // Nothing is claimed of it.
    ghost fits = { λ _ _ _. ⊥ };

    fn got(&mut self, alloc: Global, frame: &[u8]) -> Result<Outputs, Stop> {
        if self.frames >= self.last {
            return Err(Stop::NoMemory);
        }
        self.frames = self.frames.saturating_add(1);
        let client = Party::Client(ClientId { number: 0 });
        sent(alloc, &[Party::Replica(ReplicaId(1)), client], frame)
    }

    fn time_out(&mut self, alloc: Global) -> Result<Outputs, Stop> {
        sent(alloc, &[Party::Replica(ReplicaId(2))], b"t")
    }

    fn standing(&self) -> Standing {
        Standing {
            view: None,
            part: None,
            request: self.request(),
        }
    }

    ghost is_right = { λ machine c history h. absurd h };
}

impl Echo {
    fn request(&self) -> Option<(u16, Timestamp)> {
        if self.frames == 0 {
            return None;
        }
        Some((0, Timestamp(self.frames)))
    }
}

fn sent(alloc: Global, receivers: &[Party], frame: &[u8]) -> Result<Outputs, Stop> {
    let receivers = receivers.to_vec(alloc)?;
    let bytes = frame.to_vec(alloc)?;
    let mut outputs = Vec::new(alloc);
    emit(
        &mut outputs,
        Output::Send(receivers, SharedBytes::new(bytes)?),
    )?;
    Ok(outputs)
}

// What it reads and what it then writes, by another implementation of the loop, in Python: timer 1, before any frame; a
// frame; timer 1; a record of no bytes; a frame; timer 2; timer 2 again; a timer of three bytes; one link; timer 3; a
// record of kind 9; two links; timer 4; links without a count; an empty frame.
static READ: [u8; 132] = [
    0x00, 0x00, 0x00, 0x09, 0x02, 0x00, 0x00, 0x00, 0x00, 0x00, 0x00, 0x00, 0x01, 0x00, 0x00, 0x00,
    0x02, 0x01, 0xa1, 0x00, 0x00, 0x00, 0x09, 0x02, 0x00, 0x00, 0x00, 0x00, 0x00, 0x00, 0x00, 0x01,
    0x00, 0x00, 0x00, 0x00, 0x00, 0x00, 0x00, 0x03, 0x01, 0xb2, 0xb3, 0x00, 0x00, 0x00, 0x09, 0x02,
    0x00, 0x00, 0x00, 0x00, 0x00, 0x00, 0x00, 0x02, 0x00, 0x00, 0x00, 0x09, 0x02, 0x00, 0x00, 0x00,
    0x00, 0x00, 0x00, 0x00, 0x02, 0x00, 0x00, 0x00, 0x04, 0x02, 0x00, 0x00, 0x00, 0x00, 0x00, 0x00,
    0x02, 0x03, 0x01, 0x00, 0x00, 0x00, 0x09, 0x02, 0x00, 0x00, 0x00, 0x00, 0x00, 0x00, 0x00, 0x03,
    0x00, 0x00, 0x00, 0x03, 0x09, 0x7a, 0x7a, 0x00, 0x00, 0x00, 0x02, 0x03, 0x02, 0x00, 0x00, 0x00,
    0x09, 0x02, 0x00, 0x00, 0x00, 0x00, 0x00, 0x00, 0x00, 0x04, 0x00, 0x00, 0x00, 0x01, 0x03, 0x00,
    0x00, 0x00, 0x01, 0x01,
];

static WRITTEN: [u8; 136] = [
    0x00, 0x00, 0x00, 0x07, 0x01, 0x02, 0x00, 0x01, 0x01, 0x00, 0xa1, 0x00, 0x00, 0x00, 0x0d, 0x02,
    0x00, 0x00, 0x00, 0x00, 0x00, 0x00, 0x00, 0x01, 0x00, 0x00, 0x07, 0xd0, 0x00, 0x00, 0x00, 0x05,
    0x01, 0x01, 0x00, 0x02, 0x74, 0x00, 0x00, 0x00, 0x0d, 0x02, 0x00, 0x00, 0x00, 0x00, 0x00, 0x00,
    0x00, 0x02, 0x00, 0x00, 0x0f, 0xa0, 0x00, 0x00, 0x00, 0x08, 0x01, 0x02, 0x00, 0x01, 0x01, 0x00,
    0xb2, 0xb3, 0x00, 0x00, 0x00, 0x0d, 0x02, 0x00, 0x00, 0x00, 0x00, 0x00, 0x00, 0x00, 0x03, 0x00,
    0x00, 0x07, 0xd0, 0x00, 0x00, 0x00, 0x0d, 0x02, 0x00, 0x00, 0x00, 0x00, 0x00, 0x00, 0x00, 0x04,
    0x00, 0x00, 0x07, 0xd0, 0x00, 0x00, 0x00, 0x05, 0x01, 0x01, 0x00, 0x02, 0x74, 0x00, 0x00, 0x00,
    0x0d, 0x02, 0x00, 0x00, 0x00, 0x00, 0x00, 0x00, 0x00, 0x05, 0x00, 0x00, 0x0f, 0xa0, 0x00, 0x00,
    0x00, 0x06, 0x01, 0x02, 0x00, 0x01, 0x01, 0x00,
];

// Where each of these records ends, and what is due for all up to it.
static ENDS: [(usize, usize); 15] = [
    (13, 0),
    (19, 28),
    (32, 54),
    (36, 54),
    (43, 66),
    (56, 83),
    (69, 83),
    (77, 83),
    (83, 83),
    (96, 100),
    (103, 100),
    (109, 100),
    (122, 126),
    (127, 126),
    (132, 136),
];

// A frame, and then a record that says to have 4,294,967,295 bytes.
static LONGEST: [u8; 12] = [
    0x00, 0x00, 0x00, 0x02, 0x01, 0xa1, 0xff, 0xff, 0xff, 0xff, 0x01, 0xa1,
];

// How many bytes are due for so many that were read.
fn due_for(len: usize) -> usize {
    let mut due = 0;
    for &(end, written) in &ENDS {
        if end <= len {
            due = written;
        }
    }
    due
}

fn due(len: usize) -> &'static [u8] {
    &WRITTEN[..due_for(len).min(WRITTEN.len())]
}

// Takes so many bytes at a time, and fails beyond so many.
#[derive(Drop)]
struct Sink {
    taken: [u8; 136],
    len: usize,
    step: usize,
    most: usize,
}

impl Sink {
    fn taken(&self) -> &[u8] {
        &self.taken[..self.len.min(136)]
    }
}

impl Write for Sink {
    fn write(&mut self, buf: &[u8]) -> io::Result<usize> {
        let from = self.len.min(136);
        let room = self.most.min(136).saturating_sub(from);
        let count = buf.len().min(self.step).min(room);
        if count == 0 && !buf.is_empty() {
            return Err(io::Error::from(ErrorKind::BrokenPipe));
        }
        self.taken[from..from + count].copy_from_slice(&buf[..count]);
        self.len = from + count;
        Ok(count)
    }

    fn flush(&mut self) -> io::Result<()> {
        Ok(())
    }
}

// How a run ends.
#[derive(Clone, Copy, PartialEq, Eq)]
enum End {
    AtEnd,
    Memory,
    Writing,
    Other,
}

fn end_of(ended: Result<(), ServeFault>) -> End {
    match ended {
        Ok(()) => End::AtEnd,
        Err(ServeFault::NoMemory) => End::Memory,
        Err(ServeFault::Write(_)) => End::Writing,
        Err(_) => End::Other,
    }
}

// A run: over this input, of which so many bytes come at a time; to a writer that takes so many at a time, and so many
// at most; and memory runs out at the frame of this number.
#[derive(Clone, Copy)]
struct Case {
    input: &'static [u8],
    read: usize,
    written: usize,
    most: usize,
    last: u64,
}

fn whole() -> Case {
    Case {
        input: &READ,
        read: 132,
        written: 136,
        most: 136,
        last: 99,
    }
}

fn sink_of(case: Case) -> Sink {
    Sink {
        taken: [0; 136],
        len: 0,
        step: case.written,
        most: case.most,
    }
}

fn run(alloc: Global, case: Case, sink: &mut Sink) -> End {
    let pieces = Pieces {
        left: case.input,
        step: case.read,
    };
    let echo = Echo {
        frames: 0,
        last: case.last,
    };
    end_of(serve(alloc, echo, 2, pieces, sink))
}

// Whether the run ends so, and what is written is this.
fn goes(alloc: Global, case: Case, end: End, written: &[u8]) -> bool {
    let mut sink = sink_of(case);
    run(alloc, case, &mut sink) == end && sink.taken() == written
}

#[test]
fn pieces_of_any_length_give_the_same(rt: HostRuntime) {
    let alloc = rt.alloc();
    for step in 1..133 {
        let read = Case {
            read: step,
            ..whole()
        };
        assert!(rt;
            goes(alloc, read, End::AtEnd, &WRITTEN),
            "{step} bytes are read at a time"
        );
        let written = Case {
            written: step,
            ..whole()
        };
        assert!(rt;
            goes(alloc, written, End::AtEnd, &WRITTEN),
            "{step} are written at a time"
        );
    }
}

#[test]
fn an_input_ends_anywhere(rt: HostRuntime) {
    let alloc = rt.alloc();
    for len in 0..133 {
        let cut = Case {
            input: &READ[..len.min(132)],
            ..whole()
        };
        assert!(rt; goes(alloc, cut, End::AtEnd, due(len)), "{len} bytes");
    }
    let longest = Case {
        input: &LONGEST,
        ..whole()
    };
    assert!(rt;
        goes(alloc, longest, End::AtEnd, due(19)),
        "the longest length"
    );
}

#[test]
fn a_writer_fails_behind_a_front(rt: HostRuntime) {
    let alloc = rt.alloc();
    for most in 0..136 {
        let failing = Case {
            most,
            read: 7,
            ..whole()
        };
        let front = &WRITTEN[..most.min(136)];
        assert!(rt; goes(alloc, failing, End::Writing, front), "{most} bytes");
    }
}

#[test]
fn want_of_memory_stops_it_between_events(rt: HostRuntime) {
    let alloc = rt.alloc();
    let first = Case { last: 0, ..whole() };
    assert!(rt; goes(alloc, first, End::Memory, &[]));
    let second = Case { last: 1, ..whole() };
    assert!(rt; goes(alloc, second, End::Memory, due(36)));
    let third = Case { last: 2, ..whole() };
    assert!(rt; goes(alloc, third, End::Memory, due(127)));
}

// Whether all is written, or memory ran out, and all is written that was due up to some record.
fn stops_between_events(alloc: Global, case: Case) -> bool {
    let mut sink = sink_of(case);
    match run(alloc, case, &mut sink) {
        End::AtEnd => sink.taken() == WRITTEN.as_slice(),
        End::Memory => ends_with_a_record(sink.taken()),
        _ => false,
    }
}

fn ends_with_a_record(taken: &[u8]) -> bool {
    let is_at_end = ENDS.iter().any(|end| end.1 == taken.len());
    is_at_end && taken == &WRITTEN[..taken.len().min(136)]
}

// For `rt try --fail-alloc`: it passes whatever is refused.
#[test]
fn any_refusal_stops_it_between_events(rt: HostRuntime) {
    let pieces = Case {
        read: 1,
        written: 1,
        ..whole()
    };
    assert!(rt; stops_between_events(rt.alloc(), whole()));
    assert!(rt; stops_between_events(rt.alloc(), pieces));
}

// What was flushed, and whether it was all that was due at each read.
#[derive(Drop)]
struct Shown {
    bytes: RefCell<Vec<u8>>,
    is_right: Cell<bool>,
}

// Gives so many bytes at a time, and looks whether all that is due for those before was flushed.
#[derive(Drop)]
struct Asking<'a> {
    given: usize,
    step: usize,
    shown: &'a Shown,
}

impl Read for Asking<'_> {
    fn read(&mut self, buf: &mut [u8]) -> io::Result<usize> {
        if !self.shown.is(due(self.given)) {
            self.shown.is_right.set(false);
        }
        let from = self.given.min(READ.len());
        let to = from.saturating_add(self.step).min(READ.len());
        let mut piece = &READ[from..to];
        let count = piece.read(buf)?;
        self.given = from + count;
        Ok(count)
    }
}

impl Shown {
    fn is(&self, bytes: &[u8]) -> bool {
        match self.bytes.try_borrow() {
            Ok(shown) => shown.as_slice() == bytes,
            Err(_) => false,
        }
    }
}

// Shows nothing before it is flushed.
#[derive(Drop)]
struct Flushed<'a> {
    held: Vec<u8>,
    shown: &'a Shown,
}

impl Write for Flushed<'_> {
    fn write(&mut self, buf: &[u8]) -> io::Result<usize> {
        self.held.write(buf)
    }

    fn flush(&mut self) -> io::Result<()> {
        match self.shown.bytes.try_borrow_mut() {
            Ok(mut shown) => shown.write_all(self.held.as_slice())?,
            Err(_) => return Err(io::Error::from(ErrorKind::ResourceBusy)),
        }
        self.held.clear();
        Ok(())
    }
}

// Whether nothing is held back at a read, if so many bytes come at a time.
fn answers_first(alloc: Global, step: usize) -> bool {
    let shown = Shown {
        bytes: RefCell::new(Vec::new(alloc)),
        is_right: Cell::new(true),
    };
    let asking = Asking {
        given: 0,
        step,
        shown: &shown,
    };
    let mut flushed = Flushed {
        held: Vec::new(alloc),
        shown: &shown,
    };
    let echo = Echo {
        frames: 0,
        last: 99,
    };
    let ended = end_of(serve(alloc, echo, 2, asking, &mut flushed));
    ended == End::AtEnd && shown.is_right.get() && shown.is(&WRITTEN)
}

#[test]
fn all_is_written_before_it_waits(rt: HostRuntime) {
    for step in 1..133 {
        assert!(rt; answers_first(rt.alloc(), step), "{step} bytes at a time");
    }
}
