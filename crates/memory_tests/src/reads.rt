//! A replica that answers a read beside the order.

use crate::left::{Call, Outcome, Tally, assert_right, under_each_size};
use crate::spaces::{applied, is_done};
use bumpalo::Bump;
use read_only::{ReadFault, ReadRequest, Shelf, answer};
use space::Space;
use std::alloc::Global;
use std::rt::Files;
use terms::{ClientId, Number, Timestamp};
use test_bytes::{READ, read_op};
use tuple_codec::{Answer, is_op};

// out ("k")
const OUT: &[u8] = b"\x21\x01\x02\0\x01k";

const CRUMBS: usize = 256;

const CRUMB: usize = 48;

// Answers `rdp (*)` over a space of one tuple, with a new arena each time.
#[derive(Drop)]
struct Answers<'a> {
    space: &'a Space,
}

impl Call for Answers<'_> {
    fn call(&mut self, alloc: Global) -> Outcome {
        if !is_op(READ) {
            return Outcome::Wrong;
        }
        let shelf = Shelf {
            space: self.space,
            number: Number(17),
        };
        let request = ReadRequest {
            client: ClientId { number: 1 },
            timestamp: Timestamp(9),
            op: READ,
        };
        let mut arena = Bump::new(alloc);
        match answer(alloc, &shelf, &request, &mut arena) {
            Ok(reply) if matches!(reply.answer, Answer::Found(_)) => Outcome::Done,
            Err(ReadFault::NoMemory) => Outcome::Refused,
            _ => Outcome::Wrong,
        }
    }
}

fn is_put(alloc: Global, space: &mut Space) -> bool {
    match read_op(alloc, OUT) {
        Some(out) => is_done(&applied(space, &out)),
        None => false,
    }
}

fn tally_in<R: Files>(rt: &R, alloc: Global, space: &mut Space) -> Option<Tally> {
    if is_put(alloc, space) {
        under_each_size(rt, alloc, CRUMBS, CRUMB, &mut Answers { space: &*space })
    } else {
        Tally::unprepared()
    }
}

fn tally_of<R: Files>(rt: &R, alloc: Global) -> Option<Tally> {
    let mut space = Space::new(alloc);
    tally_in(rt, alloc, &mut space)
}

#[test]
fn answers_under_each_size(rt: HostRuntime) {
    assert_right(&rt, tally_of(&rt, rt.alloc()));
}
