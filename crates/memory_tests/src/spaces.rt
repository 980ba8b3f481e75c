//! A space that copies tuples.

use crate::left::{Call, Outcome, Tally, assert_right, outcome_of, under_each_size};
use space::{PAGES, PeekFault, Space};
use std::alloc::Global;
use std::rt::Files;
use test_bytes::read_op;
use tuple_codec::{Answer, Bad, Op};

// out ((("ab") 1) "cd")
const OUT: &[u8] = b"\x21\x02\x05\x02\x05\x01\x02\0\x02ab\x01\0\0\0\0\0\0\0\x01\x02\0\x02cd";

// inp (* ?text), and rdp (* ?text)
const INP: &[u8] = b"\x23\x02\x10\x12";

const RDP: &[u8] = b"\x22\x02\x10\x12";

// The tuple `(1)` with birth number 0, and the empty tuple with birth numbers 1 and 257.
static FIRST: [u8; 18] = *b"\0\0\0\0\0\0\0\0\x01\x01\0\0\0\0\0\0\0\x01";

static RISING: [u8; 18] = *b"\0\0\0\0\0\0\0\x01\0\0\0\0\0\0\0\x01\x01\0";

// One executed batch, and 258 as the next birth number.
static HEADER: [u8; 17] = *b"\x01\0\0\0\0\0\0\0\x01\0\0\0\0\0\0\x01\x02";

const CRUMBS: usize = 256;

const CRUMB: usize = 48;

// Puts a tuple in an empty space, and takes it again.
#[derive(Drop)]
struct Puts<'a> {
    space: &'a mut Space,
    out: &'a Op<Global>,
    inp: &'a Op<Global>,
}

impl Call for Puts<'_> {
    fn call(&mut self, _alloc: Global) -> Outcome {
        match put_once(self.space, self.out) {
            Outcome::Done => take_once(self.space, self.inp),
            Outcome::Refused => Outcome::Refused,
            Outcome::Wrong => Outcome::Wrong,
        }
    }
}

fn put_once(space: &mut Space, out: &Op<Global>) -> Outcome {
    let answer = applied(space, out);
    outcome_of(
        is_done(&answer) && space.count() == 1,
        answer.is_none() && space.count() == 0,
    )
}

fn take_once(space: &mut Space, inp: &Op<Global>) -> Outcome {
    let answer = applied(space, inp);
    outcome_of(
        matches!(answer, Some(Answer::Found(_))) && space.count() == 0,
        false,
    )
}

/// The answer to the operation. None if memory ran out.
pub fn applied(space: &mut Space, op: &Op<Global>) -> Option<Answer<Global>> {
    if space.births_left() {
        space.apply(0, op).ok()
    } else {
        Some(Answer::Full)
    }
}

/// Whether it was done.
pub fn is_done(answer: &Option<Answer<Global>>) -> bool {
    matches!(answer, Some(Answer::Done))
}

// Reads a tuple of a space of one.
#[derive(Drop)]
struct Reads<'a> {
    space: &'a Space,
    rdp: &'a Op<Global>,
}

impl Call for Reads<'_> {
    fn call(&mut self, _alloc: Global) -> Outcome {
        let answer = self.space.peek(self.rdp);
        outcome_of(
            matches!(answer, Ok(Answer::Found(_))),
            matches!(answer, Err(PeekFault::NoMemory)) && self.space.count() == 1,
        )
    }
}

// Reads a space of three tuples back from its pages.
#[derive(Drop)]
struct ReadsBack;

impl Call for ReadsBack {
    fn call(&mut self, alloc: Global) -> Outcome {
        let mut pages: [&[u8]; PAGES] = [&[]; PAGES];
        pages[0] = &FIRST;
        pages[1] = &RISING;
        end_of(&Space::from_pages(alloc, pages.as_slice(), &HEADER))
    }
}

fn end_of(read: &Result<(Space, u64), Bad>) -> Outcome {
    match read {
        Ok((space, executed)) => outcome_of(*executed == 1 && space.count() == 3, false),
        Err(Bad::NoMemory) => Outcome::Refused,
        Err(_) => Outcome::Wrong,
    }
}

fn reads_tally<R: Files>(
    rt: &R,
    alloc: Global,
    space: &mut Space,
    out: &Op<Global>,
    rdp: &Op<Global>,
) -> Option<Tally> {
    if is_done(&applied(space, out)) {
        under_each_size(
            rt,
            alloc,
            CRUMBS,
            CRUMB,
            &mut Reads {
                space: &*space,
                rdp,
            },
        )
    } else {
        Tally::unprepared()
    }
}

// The tally of reads, or of puts, over a space that is empty.
fn tally_in<R: Files>(
    rt: &R,
    alloc: Global,
    space: &mut Space,
    out: &Op<Global>,
    op: &Op<Global>,
    is_read: bool,
) -> Option<Tally> {
    if is_read {
        reads_tally(rt, alloc, space, out, op)
    } else {
        let mut puts = Puts {
            space,
            out,
            inp: op,
        };
        under_each_size(rt, alloc, CRUMBS, CRUMB, &mut puts)
    }
}

fn tally_with<R: Files>(
    rt: &R,
    alloc: Global,
    out: &Op<Global>,
    op: &Op<Global>,
    is_read: bool,
) -> Option<Tally> {
    let mut space = Space::new(alloc);
    tally_in(rt, alloc, &mut space, out, op, is_read)
}

fn tally_behind<R: Files>(rt: &R, alloc: Global, out: &Op<Global>, is_read: bool) -> Option<Tally> {
    match read_op(alloc, if is_read { RDP } else { INP }) {
        Some(op) => tally_with(rt, alloc, out, &op, is_read),
        None => Tally::unprepared(),
    }
}

fn tally_of<R: Files>(rt: &R, alloc: Global, is_read: bool) -> Option<Tally> {
    match read_op(alloc, OUT) {
        Some(out) => tally_behind(rt, alloc, &out, is_read),
        None => Tally::unprepared(),
    }
}

#[test]
fn puts_under_each_size(rt: HostRuntime) {
    assert_right(&rt, tally_of(&rt, rt.alloc(), false));
}

#[test]
fn reads_under_each_size(rt: HostRuntime) {
    assert_right(&rt, tally_of(&rt, rt.alloc(), true));
}

#[test]
fn reads_back_under_each_size(rt: HostRuntime) {
    assert_right(
        &rt,
        under_each_size(&rt, rt.alloc(), CRUMBS, CRUMB, &mut ReadsBack),
    );
}
